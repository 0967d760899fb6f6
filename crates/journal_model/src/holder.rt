/// Who holds a task: the number that claimed it, and the child that it is for, or 0.
#[derive(Clone, Copy, PartialEq, Eq, Debug)]
pub struct Holder {
    pub by: u32,
    pub child: u32,
}
