// What the roles of a kit promise, each of its own pass, is what the kit promises, and what follows of that: laws, each the contract of a
// function with nothing to do.
ghost use Rattle.kit_async.specs.Endings.{RolesServe};
ghost use Rattle.kit_async.specs.Laws.{AllIsWritten, DescriptionsTellNoWord, JobsAreSettled, StatusIsHeard, WordsAreSaid};

/// Where each role did what it promises, the kit served as it promises.
pub fn roles_serve()
    ensures { RolesServe }
{}

/// A kit's status is 1 exactly where a line ended it or is too long, if no write failed and memory was found.
pub fn status_is_heard()
    ensures { StatusIsHeard }
{}

/// Unless a write failed or memory ran out, all that was said is written.
pub fn all_is_written()
    ensures { AllIsWritten }
{}

/// Where the host's lines came to an end, each job but one that awaits a value is settled.
pub fn jobs_are_settled()
    ensures { JobsAreSettled }
{}

/// What a kit has of a remote's description is neither the version nor the error.
pub fn descriptions_tell_no_word()
    ensures { DescriptionsTellNoWord }
{}

/// The version is said first and once, and the error to what is unexpected last and once, unless the remotes' own lines are such words.
pub fn words_are_said()
    ensures { WordsAreSaid }
{}
