use ann_key::Text;
use task_model::Setup;

/// What a run is made with, beside its tasks.
#[derive(Drop)]
pub struct Plan {
    /// The program that serves the remote.
    pub program: Text,
    /// How often it may be started, 1 to 16.
    pub starts: u32,
    /// Whether ASYNC is offered, until a child was ready untagged.
    pub offers: bool,
    pub setup: Setup,
}
