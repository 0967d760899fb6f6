// A law over the definitions, the contract of a function with nothing to do.
ghost use Rattle.special_cli.specs.Calls.{DoneIsCalled};

/// What was done gives all that the clause `called` of `special` says: that clause follows from `done`.
pub fn done_is_called()
    ensures { DoneIsCalled }
{}
