// Laws of the halls of a kit's core, each the contract of a function with nothing to do.
ghost use Rattle.kit_async_model.specs.Laws.{FinishedStays};
ghost use Rattle.kit_async_core.specs.Laws.{FinalIsFinished, HallsStayLegal, ReadersHear, FinalIsHeard, RemotesAreAsked, CallsAreNoted};

/// Once nothing more can come and all is written, it stays so, whoever has seen it.
pub fn finished_stays()
    ensures journal { FinishedStays }
    ensures closed { FinalIsFinished }
{}

/// However many passes step a core in whatever turns, its journal is legal when the hall is closed.
pub fn halls_stay_legal()
    ensures { HallsStayLegal }
{}

/// What a reader sees as heard is what it told and the core took: nobody else hears.
pub fn readers_hear()
    ensures entered { ReadersHear }
    ensures closed { FinalIsHeard }
{}

/// A remote that is told to work is noted to have had exactly that call, whatever others do in between.
pub fn calls_are_noted()
    ensures asked { RemotesAreAsked }
    ensures noted { CallsAreNoted }
{}
