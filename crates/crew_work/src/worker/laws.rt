// Laws of what a task is told of its key, each the contract of a function with nothing to do.
ghost use Rattle.crew_work.specs.Worker.KnownLayouts.{BusyKeysDiffer, LayoutsStay, LayoutsSinceClaim};

/// Two busy tasks never name one key: a task is claimed only where no busy one is in its way.
pub fn busy_keys_differ()
    ensures { BusyKeysDiffer }
{}

/// While a task is busy and notes nothing, the layouts of its key stay, whatever others note.
pub fn layouts_stay()
    ensures { LayoutsStay }
{}

/// They are those in which the remote was known to have the key when the task was claimed.
pub fn layouts_since_claim()
    ensures { LayoutsSinceClaim }
{}
