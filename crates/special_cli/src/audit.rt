// The command `audit`: the input is read as the text of a run, and its journal is checked.
ghost use Rattle.std.specs.Prelude.{◌≡◌, true};
ghost use Rattle.run_and_check.specs.Run.Inputs.{input_flow};
ghost use Rattle.special_cli.specs.Audits.{HasAudited, end_of_audit};

use crate::end::End;
use crate::outside::Outside;
use crate::ran::Ran;
use ann_outside::{Desks, Programs, Source};
use audit_command::{AuditError, Limits, audit_input};
use cli_words::Reason;
use journal_audit::Audit;
use std::alloc::Global;

/// Audits the input: nothing is started, and no desk is asked for.
pub(crate) fn audit<P: Programs, K: Desks, I: Source>(
    alloc: Global,
    outside: Outside<P, K>,
    input: &mut I,
) -> Ran<P, K>
    requires { (I.told input.old).is_open ≡ true }
    ensures { HasAudited outside (input_flow (I.told input.old) (I.told input.new)) result }
{
    let outcome = audit_input(alloc, input, &Limits::AUDIT);
    Ran::nothing(alloc, outside, end_of_audit(outcome))
}

// What is to be told of an audit that came to this.
fn end_of_audit(outcome: Result<Audit, AuditError>) -> End
    ensures { result ≡ end_of_audit outcome }
{
    match outcome {
        Ok(found) => End::Audited(found),
        Err(AuditError::Entry { line }) => End::Refused {
            line,
            reason: Reason::Entry,
        },
        Err(AuditError::Cut { line }) => End::Refused {
            line,
            reason: Reason::Cut,
        },
        Err(AuditError::Failed) => End::InputFailed,
        Err(AuditError::NoMemory) => End::Memory,
    }
}
