// What makes two tasks alike.

/// The text by which tasks are grouped. Two tasks with the same one, which isn't empty, are never busy at once.
#[derive(Clone, Copy)]
pub(super) enum By {
    Key,
    File,
}
