// The lines that say why a call ended.
ghost use Rattle.std.specs.Prelude.{◌≡◌, IfOk};
ghost use Rattle.cli_words.specs.Texts.{bad_kept_line, file_line, input_line, keep_changed_line, keep_large_line, memory_line, refused_line, usage_line};

use crate::refusals::Reason;
use ann_key::{Bytes, NoMemory};
use std::alloc::Global;

/// The line for words that aren't in the grammar.
pub fn usage_line() -> &'static [u8]
    ensures { result.now ≡ usage_line }
{
    b"special: usage\n"
}

/// The line for a run that found no memory.
pub fn memory_line() -> &'static [u8]
    ensures { result.now ≡ memory_line }
{
    b"special: memory\n"
}

/// The line for an input that can't be read.
pub fn input_line() -> &'static [u8]
    ensures { result.now ≡ input_line }
{
    b"special: input failed\n"
}

/// The line for a kept file or a journal file that can't be read or written.
pub fn file_line() -> &'static [u8]
    ensures { result.now ≡ file_line }
{
    b"special: file failed\n"
}

/// The line for a kept file that is larger than it may be.
pub fn keep_large_line() -> &'static [u8]
    ensures { result.now ≡ keep_large_line }
{
    b"special: keep large\n"
}

/// The line for a kept file that holds neither what a run began with nor what came of it.
pub fn keep_changed_line() -> &'static [u8]
    ensures { result.now ≡ keep_changed_line }
{
    b"special: keep changed\n"
}

/// The line for a bad line of a kept file, counted from 1.
pub fn bad_kept_line(alloc: Global, line: u64) -> Result<Bytes, NoMemory>
    ensures { IfOk result (λ b. b ≡ bad_kept_line line) }
{
    let text = format!(in alloc; "special: keep line {line}\n")?;
    Ok(Bytes::copy(alloc, text.as_bytes())?)
}

/// The line for a refused line of the input, counted from 1.
pub fn refused_line(alloc: Global, line: u64, reason: Reason) -> Result<Bytes, NoMemory>
    ensures { IfOk result (λ b. b ≡ refused_line line reason) }
{
    let text = format!(in alloc; "special: line {line}: {reason}\n")?;
    Ok(Bytes::copy(alloc, text.as_bytes())?)
}
