// What a get leaves of what was stored before, where the remote is faithful. Each law is the contract of a function with nothing to do.
ghost use Rattle.run_starts.specs.TaskLaws.Retrieval.{KeepsStored, KeepsStoredContent, FileKeepsStored, FileKeepsContent, LastsToTheEnd, AnsweredIsLast};
ghost use Rattle.run_starts.specs.TaskLaws.ToldDesks.{DeskHolds};

/// With a faithful remote a get keeps, as its file, what the STOREs of its keys sent.
pub fn keeps_stored()
    ensures { KeepsStored }
{}

/// Where one task stored all of them in chunks, that is the content of its file.
pub fn keeps_stored_content()
    ensures { KeepsStoredContent }
{}

/// Where its calls were played on its desk's files, the file holds what these STOREs sent.
pub fn file_keeps_stored()
    ensures { FileKeepsStored }
{}

/// Where one task stored all of them in chunks, the file holds the content of that task's file.
pub fn file_keeps_content()
    ensures { FileKeepsContent }
{}

/// A file that a desk's later tasks leave as it is holds that in the end.
pub fn lasts_to_the_end()
    ensures { LastsToTheEnd }
{}

/// So it is of each task that a desk did, where it is told.
pub fn desk_holds()
    ensures { DeskHolds }
{}

/// A run of a task whose child wasn't lost answers the task, and is its last one.
pub fn answered_is_last()
    ensures { AnsweredIsLast }
{}
