// Each text has one answer. Each law is the contract of a function with nothing to do.
ghost use Rattle.task_text.specs.KeyLaws.OneAnswer.{OneChunkError, OneChunkLine, OneError, OneKeyAnswer, OneTaskError};

/// Two errors of one text, as `KeyRef::read` may answer them, are equal in kind and place.
pub fn one_error()
    ensures { OneError }
{}

/// A text has one answer: one key and no error, or one error and no key.
pub fn one_key_answer()
    ensures { OneKeyAnswer }
{}

/// Two errors of one line of a chunk log are equal.
pub fn one_chunk_error()
    ensures { OneChunkError }
{}

/// A line of a chunk log is read in one way.
pub fn one_chunk_line()
    ensures { OneChunkLine }
{}

/// Two errors of one line of tasks are equal.
pub fn one_task_error()
    ensures { OneTaskError }
{}
