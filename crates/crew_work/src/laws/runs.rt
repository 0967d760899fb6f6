// Laws over the definitions, each the contract of a function with nothing to do.
ghost use Rattle.crew_work.specs.Laws.RunLaws.{RunsLast, TaggedRuns, PoolRuns, AloneRuns};

/// A run of a task stays in a journal as it was.
pub fn runs_last()
    ensures { RunsLast }
{}

/// What a round leaves, where each turn that a worker took ran as Task run says.
pub fn rounds_of_runs()
    ensures tagged { TaggedRuns }
    ensures pool { PoolRuns }
    ensures alone { AloneRuns }
{}
