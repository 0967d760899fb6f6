use run_starts::Plan;
use std::alloc::Global;
use task_text::Task;

/// What a run is handed, and what stays the same in it.
#[derive(Drop)]
pub(crate) struct Setting<'a> {
    pub alloc: Global,
    pub plan: &'a Plan,
    pub tasks: &'a [Task],
}
