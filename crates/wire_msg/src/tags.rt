ghost use Rattle.std.specs.Prelude.{◌≡◌, option_map, option_copied, IfOk, MatchOption, ℕ, List, Some};
ghost use Rattle.annex_model.specs.Tags.{untag, tagged_line, Tagged, numbered};
ghost use Rattle.annex_model.specs.Messages.{number_field};

use crate::fields;
use ann_key::{Bytes, NoMemory, number_of};
use std::alloc::Global;

/// The number and the message of a tagged line; None exactly where it isn't tagged. It takes no memory.
/// <https://git-annex.branchable.com/design/external_special_remote_protocol/async_appendix/>
pub fn untag(line: &[u8]) -> Option<(u64, &[u8])>
    ensures reading { option_map (λ t. (t.0, t.1.now)) result ≡ untag line.now }
    ensures tagged { MatchOption result ((n : ℕ) (rest : List ℕ) → Tagged line.now n rest → ⊥) (λ t. Tagged line.now t.0 t.1.now) }
{
    scan(line)
}

fn scan(line: &[u8]) -> Option<(u64, &[u8])>
    ensures { option_map (λ t. (t.0, t.1.now)) result ≡ untag line.now }
{
    match line {
        [a, b, more @ ..] => {
            if *a == b'J' && *b == b' ' {
                numbered(fields::word_of(more), fields::field_of(more))
            } else {
                None
            }
        }
        _ => None,
    }
}

fn numbered<'a>(word: &'a [u8], rest: Option<&'a [u8]>) -> Option<(u64, &'a [u8])>
    ensures { option_map (λ t. (t.0, t.1.now)) result ≡ numbered (number_field (Some word.entry.now)) (option_copied rest.entry) }
{
    let Some(number) = number_of(word) else {
        return None;
    };
    match rest {
        Some(rest) => Some((number, rest)),
        None => None,
    }
}

fn tagged(alloc: Global, job: u64, message: &[u8]) -> Result<Bytes, NoMemory>
    ensures { IfOk result (λ b. b ≡ tagged_line job message.now) }
{
    let text = format!(in alloc; "J {job} ")?;
    let mut line = Vec::from_slice(alloc, text.as_bytes())?;
    line.extend_from_slice(message)?;
    Ok(Bytes::from_vec(line))
}

/// The line of the message for that job: `J`, the number without leading zeros, and the message, each after a space.
/// Untagged, it gives number and message back.
pub fn tag(alloc: Global, job: u64, message: &[u8]) -> Result<Bytes, NoMemory>
    ensures line { IfOk result (λ b. b ≡ tagged_line job message.now) }
    ensures untagged { IfOk result (λ b. untag b ≡ Some (job, message.now)) }
{
    let line = tagged(alloc, job, message)?;
    Ok(line)
}
