use crate::watched::Fault;
use journal_look::Journal;
use journal_model::Answer;
use std::io::Error;

/// What is known of a command that ended, for those who read standard error.
#[derive(Drop)]
pub(crate) struct Ended<'a> {
    pub(crate) status: u8,
    pub(crate) journal: &'a Journal,
    pub(crate) answers: &'a [Answer],
    /// The files at which desk 0 failed.
    pub(crate) faults: &'a [Fault],
    /// Why the last start that failed did.
    pub(crate) failure: Option<Error>,
}
