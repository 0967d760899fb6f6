/// What a reader awaits next.
#[derive(Clone, Copy, PartialEq, Eq, Debug)]
pub enum Place {
    Head,
    Uuid,
    Name,
    Gitdir,
    Stamp,
    /// How often a task may be run again; an early text doesn't say it.
    Again,
    /// A task, or what is kept, or the journal's begin.
    Given,
    /// An entry, or the end.
    Entries,
    /// Nothing: the end has come.
    Over,
    /// Nothing: the line of that number can't follow.
    Refused { line: u64 },
}
