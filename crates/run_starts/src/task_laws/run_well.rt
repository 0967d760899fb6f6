// How the tasks of a run are answered that went well from outside. Each law is the contract of a function with nothing to do.
ghost use Rattle.run_starts.specs.TaskLaws.RunWell.{RunsSucceed};

/// Where all went well from outside, each task over a child is answered by its success, or says that memory ran out.
pub fn runs_succeed()
    ensures { RunsSucceed }
{}
