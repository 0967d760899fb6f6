// Laws over the definitions, each the contract of a function with nothing to do.
ghost use Rattle.host_talk.specs.Request.Hearings.{SettledMakesConv, FoulCannotFollow, PartTalksOn, AsideTalksOn, TakenAnswers};

/// After a talk so far, a message that is heard as settling it makes a whole conversation with that final, one that is heard
/// as a part or as an aside goes on, and one that is heard as foul can't follow.
pub fn hearing_is_talking()
    ensures settled { SettledMakesConv }
    ensures part { PartTalksOn }
    ensures aside { AsideTalksOn }
    ensures foul { FoulCannotFollow }
{}

/// Messages that are heard as parts one by one, and perhaps a last one as settling, are an answer.
pub fn taken_lines_are_answers()
    ensures { TakenAnswers }
{}
