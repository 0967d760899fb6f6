/// A run of a task: the task's number, and the turn of the run among the task's runs, from 1 on.
#[derive(Clone, Copy)]
pub struct TaskTurn {
    pub task: u32,
    pub turn: u32,
}
