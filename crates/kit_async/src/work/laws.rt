// What the roles did, of the journal at the end: laws, each the contract of a function with nothing to do.
ghost use Rattle.kit_async.specs.Work.Ends.{ReadersEnd, WritersEnd, WorkersEnd};

/// When the hall is closed, what the source gave is the journal's lines that were heard, and what is held.
pub fn readers_end()
    ensures { ReadersEnd }
{}

/// What the sink took is the text of the journal's lines that are written, and where writing failed the first bytes of the next.
pub fn writers_end()
    ensures { WritersEnd }
{}

/// The remote had the calls that the journal has of it.
pub fn workers_end()
    ensures { WorkersEnd }
{}
