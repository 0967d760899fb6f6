// Lines as they are written.
ghost use Rattle.std.specs.Prelude.{◌≡◌, ◌++◌, IfOk, string_bytes};
ghost use Rattle.task_text.specs.ChunkLog.ChunkLines.{line_text, IsWritable};
ghost use Rattle.task_text.specs.ChunkLog.Stamps.{digit, micros_text};

use crate::chunk_log::line::ChunkLine;
use ann_key::{Bytes, NoMemory};
use std::alloc::{AllocError, Global};

/// The line as it is written, with the stamp cut to millionths of a second.
pub fn write_line(alloc: Global, line: &ChunkLine) -> Result<Bytes, NoMemory>
    requires { IsWritable line.now }
    ensures { IfOk result (λ text. text ≡ line_text line.now) }
{
    let seconds = line.stamp.seconds;
    let mut text = format!(in alloc; "{seconds}.")?;
    push_micros(&mut text, line.stamp.nanos / 1000)?;
    let uuid = line.uuid.view();
    let chunk = line.chunk;
    let count = line.count;
    let rest = format!(in alloc; "s {uuid}:{chunk} {count}")?;
    text.push_str(rest.as_str())?;
    Ok(Bytes::from_vec(text.into_bytes()))
}

/// Appends six digits.
fn push_micros(text: &mut String, micros: u32) -> Result<(), AllocError>
    ensures { IfOk result (λ _. string_bytes text.new ≡ string_bytes text.old ++ micros_text micros) }
{
    text.push(digit(micros / 100_000))?;
    text.push(digit(micros / 10_000))?;
    text.push(digit(micros / 1_000))?;
    text.push(digit(micros / 100))?;
    text.push(digit(micros / 10))?;
    text.push(digit(micros))
}

fn digit(n: u32) -> char
    ensures { result ≡ digit n }
{
    char::from(b'0' + (n % 10) as u8)
}
