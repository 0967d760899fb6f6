// What a task that got its content keeps. Each law is the contract of a function with nothing to do.
ghost use Rattle.run_starts.specs.TaskLaws.Kept.{GotKeeps};

/// A get that began afresh and is answered Got keeps what the files of its last layout hold, in the layout's order.
pub fn got_keeps()
    ensures { GotKeeps }
{}
