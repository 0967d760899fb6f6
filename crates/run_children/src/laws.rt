// Each law is the contract of a function with nothing to do.
ghost use Rattle.ann_outside.specs.Told.{DeskTold};
ghost use Rattle.std.specs.Prelude.{ℕ, List};
ghost use Rattle.journal_model.specs.declared.entry.Entry.{Entry};
ghost use Rattle.journal_model.specs.declared.opening.Opening.{Opening};
ghost use Rattle.journal_model.specs.Legality.{Legal};
ghost use Rattle.task_model.specs.declared.setup.Setup.{Setup};
ghost use Rattle.run_children.specs.Completeness.{JobsComplete};
ghost use Rattle.run_children.specs.JobsWell.{JobsSucceed, NoneUnserved};
ghost use Rattle.run_children.specs.JobsKeep.{JobsKeep};
ghost use Rattle.run_children.specs.ToldDesks.{TasksAreTold};

/// Where all went well with the children, no task is claimed without one.
pub fn none_unserved()
    ensures { NoneUnserved }
{}

/// Where all went well from outside, each task that was run is answered by its success, or says that memory ran out.
pub fn jobs_succeed()
    ensures { (o : Opening) (setup : Setup) (limit : ℕ) (journal past entries : List Entry) (k : ℕ) (desks desks' : List DeskTold)
        → JobsSucceed o setup limit journal past entries k desks desks' }
{}

/// In a legal journal, with a faithful remote, a get keeps what the stores of its keys sent.
pub fn jobs_keep()
    ensures { (o : Opening) (setup : Setup) (journal : List Entry) → Legal o journal → JobsKeep o setup journal }
{}

/// Where no desk counted a fault, and all else went well from outside, each answer in the journal is a success, or says that no memory was found.
pub fn jobs_complete()
    ensures { JobsComplete }
{}

/// Of desks on which no call was made before a run, there are files before and after each of its tasks that fit what they tell.
pub fn tasks_are_told()
    ensures { TasksAreTold }
{}
