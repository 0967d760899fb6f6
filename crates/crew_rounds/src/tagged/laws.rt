// Laws over the definitions, each the contract of a function with nothing to do.
ghost use Rattle.crew_rounds.specs.Tagged.Coming.{EarsCome, MouthsCome, WorkersCome, WorkersStay};
ghost use Rattle.crew_rounds.specs.Tagged.TaggedRounds.{TaggedCloses};

/// What came back of a role, from a pass that had seen nothing since the hall's begin, gives what a round asks of it.
pub fn roles_come()
    ensures ears { EarsCome }
    ensures mouths { MouthsCome }
    ensures workers { WorkersCome }
    ensures stayed { WorkersStay }
{}

/// What the roles of a round over one tagged child promise gives what the round leaves, with its desks, when the hall is closed.
pub fn tagged_round_leaves()
    ensures { TaggedCloses }
{}
