// Laws over the definitions, each the contract of a function with nothing to do.
ghost use Rattle.crew_work.specs.Laws.Laws.{OwnStays, AnyRound, TaggedRound, PoolRound, AloneRound, EarlierStays, EntersSo, ClaimsGo, OthersGo, AnswersGo, FreeEnds, EarsEnd, MouthsEnd, StayedEnds};

use crate::laws::meaning::Meaning;

/// What the journal has of a pass's own is what the pass has seen of it.
pub fn own_stays()
    ensures { OwnStays }
{}

/// What every round leaves.
pub fn rounds_rest()
    ensures { AnyRound }
{}

/// What the roles of a round promise gives the contract of the round, whatever it means that a task was run.
pub fn rounds_gather<M: Meaning>()
    ensures tagged { (m : M) → TaggedRound (M.ran m) }
    ensures pool { (m : M) → PoolRound (M.ran m) }
    ensures alone { (m : M) → AloneRound (M.ran m) }
{}

/// What was done before a round stays.
pub fn earlier_stays<M: Meaning>()
    ensures { (m : M) → EarlierStays (M.ran m) }
{}

/// How a worker goes on, from its first claim to its end.
pub fn workers_go_on<M: Meaning>()
    ensures enters { EntersSo }
    ensures claims { (m : M) → ClaimsGo (M.ran m) }
    ensures others { (m : M) → OthersGo (M.ran m) }
    ensures answers { (m : M) → AnswersGo (M.ran m) }
    ensures ends { (m : M) → FreeEnds (M.ran m) }
{}

/// What a role did with its pass, or that it stayed, gives what is promised of it.
pub fn roles_end<M: Meaning>()
    ensures ears { EarsEnd }
    ensures mouths { MouthsEnd }
    ensures stayed { (m : M) → StayedEnds (M.ran m) }
{}
