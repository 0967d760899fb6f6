// Laws over the definitions, each the contract of a function with nothing to do.
ghost use Rattle.crew_work.specs.Beside.Runs.{WorkersEnd, LonesEnd};

/// What a worker did gives what is promised of it at its end.
pub fn workers_end()
    ensures shared { WorkersEnd }
    ensures lone { LonesEnd }
{}
