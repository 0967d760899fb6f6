// Where all goes well from outside, a task is answered by its success. Each law is the contract of a function with nothing to do.
ghost use Rattle.run_starts.specs.TaskLaws.WentWell.{WellIsSuccess, WellUnlessRefused};

/// A task that went well from outside is answered by its success, or says that memory ran out.
pub fn well_is_success()
    ensures { WellIsSuccess }
{}

/// Without a look at what its desk answered: else it is answered by a call that was refused, filefault or nofile.
pub fn well_unless_refused()
    ensures { WellUnlessRefused }
{}
