// Whether a line is as it is written, and whether it is written before another.
ghost use Rattle.std.specs.Prelude.{◌≡◌, IfOk, IfSome};
ghost use Rattle.ann_key.specs.KeyRefs.{text_of};
ghost use Rattle.task_text.specs.ChunkLog.ChunkLines.{IsWritable};
ghost use Rattle.kept_file.specs.Text.KeptLines.{chunk_in, line_of as kept_line};
ghost use Rattle.kept_file.specs.Text.Orders.{is_log_of, is_written, is_written_line, rank, logs_cmp, fields_cmp, kept_cmp, comes_before};
ghost use Rattle.kept_file.specs.Text.Shown.{kept_shown};

use crate::text::kept::{Kept, read_kept};
use crate::text::writing::{written_one, written_two};
use ann_key::{Bytes, NoMemory};
use std::alloc::Global;
use std::cmp::Ordering;
use task_text::chunk_log::{ChunkError, ChunkLine, read_line, write_line};

/// Whether the line is one that is written: in that spelling, and of something that has a line.
pub fn is_written_line(alloc: Global, line: &[u8]) -> Result<bool, NoMemory>
    ensures { IfOk result (λ b. b ≡ is_written_line line.now) }
{
    match read_kept(line) {
        Some(kept) => {
            if !is_written(alloc, &kept)? {
                return Ok(false);
            }
            let again = written(alloc, &kept)?;
            Ok(again.view() == line)
        }
        None => Ok(false),
    }
}

fn is_written(alloc: Global, kept: &Kept<'_>) -> Result<bool, NoMemory>
    ensures { IfOk result (λ b. b ≡ is_written (kept_shown kept.now)) }
{
    match kept {
        Kept::Setting(_, _) | Kept::Url(_, _) => Ok(true),
        Kept::Expression(expression) => Ok(!expression.is_empty()),
        Kept::State(_, value) => Ok(!value.is_empty()),
        Kept::Chunks(_, log) => is_log(alloc, log),
    }
}

fn is_log(alloc: Global, log: &[u8]) -> Result<bool, NoMemory>
    ensures { IfOk result (λ b. b ≡ is_log_of log.now (chunk_in log.now)) }
{
    match chunk_in(alloc, log)? {
        Some(line) => {
            let again = write_line(alloc, &line);
            drop(line);
            Ok(again?.view() == log)
        }
        None => Ok(false),
    }
}

fn chunk_in(alloc: Global, log: &[u8]) -> Result<Option<ChunkLine>, NoMemory>
    ensures value { IfOk result (λ line. line ≡ chunk_in log.now) }
    ensures writable { IfOk result (λ line. IfSome line (λ l. IsWritable l)) }
{
    match read_line(alloc, log) {
        Ok(line) => Ok(Some(line)),
        Err(ChunkError::NoMemory) => Err(NoMemory),
        Err(_) => Ok(None),
    }
}

// The line as it is written.
fn written(alloc: Global, kept: &Kept<'_>) -> Result<Bytes, NoMemory>
    ensures { IfOk result (λ line. line ≡ kept_line (kept_shown kept.now)) }
{
    match kept {
        Kept::Setting(name, value) => written_two(alloc, b"config", name, value),
        Kept::Expression(expression) => written_one(alloc, b"wanted", expression),
        Kept::State(key, value) => written_two(alloc, b"state", key.text(), value),
        Kept::Url(key, url) => written_two(alloc, b"url", key.text(), url),
        Kept::Chunks(key, log) => written_two(alloc, b"chunks", key.text(), log),
    }
}

/// Whether the first line is written before the second; not so where one of them is no line of a kept file.
pub fn comes_before(alloc: Global, first: &[u8], second: &[u8]) -> Result<bool, NoMemory>
    ensures { IfOk result (λ b. b ≡ comes_before first.now second.now) }
{
    match read_kept(first) {
        Some(first) => match read_kept(second) {
            Some(second) => {
                let order = kept_cmp(alloc, &first, &second)?;
                Ok(order.is_lt())
            }
            None => Ok(false),
        },
        None => Ok(false),
    }
}

fn kept_cmp(alloc: Global, first: &Kept<'_>, second: &Kept<'_>) -> Result<Ordering, NoMemory>
    ensures { IfOk result (λ order. order ≡ kept_cmp (kept_shown first.now) (kept_shown second.now)) }
{
    let fields = fields_cmp(alloc, first, second)?;
    Ok(rank(first).cmp(&rank(second)).then(fields))
}

fn rank(kept: &Kept<'_>) -> u8
    ensures { result ≡ rank (kept_shown kept.now) }
{
    match kept {
        Kept::Setting(_, _) => 0,
        Kept::Expression(_) => 1,
        Kept::State(_, _) => 2,
        Kept::Url(_, _) => 3,
        Kept::Chunks(_, _) => 4,
    }
}

// The order of two lines of one kind.
fn fields_cmp(alloc: Global, first: &Kept<'_>, second: &Kept<'_>) -> Result<Ordering, NoMemory>
    ensures { IfOk result (λ order. order ≡ fields_cmp (kept_shown first.now) (kept_shown second.now)) }
{
    match (first, second) {
        (Kept::Setting(name, _), Kept::Setting(other, _)) => Ok(name.cmp(other)),
        (Kept::State(key, _), Kept::State(other, _)) => Ok(key.text().cmp(other.text())),
        (Kept::Url(key, url), Kept::Url(other, another)) => {
            Ok(key.text().cmp(other.text()).then(url.cmp(another)))
        }
        (Kept::Chunks(key, log), Kept::Chunks(other, another)) => {
            let logs = logs_cmp(alloc, log, another)?;
            Ok(key.text().cmp(other.text()).then(logs))
        }
        _ => Ok(Ordering::Equal),
    }
}

fn logs_cmp(alloc: Global, first: &[u8], second: &[u8]) -> Result<Ordering, NoMemory>
    ensures { IfOk result (λ order. order ≡ logs_cmp (chunk_in first.now) (chunk_in second.now)) }
{
    let first = chunk_in(alloc, first)?;
    match chunk_in(alloc, second) {
        Ok(second) => Ok(lines_cmp(first, second)),
        Err(error) => {
            drop(first);
            Err(error)
        }
    }
}

// The order of two lines, which are let go by calls: what lets them go goes by their kinds.
fn lines_cmp(first: Option<ChunkLine>, second: Option<ChunkLine>) -> Ordering
    ensures { result ≡ logs_cmp first second }
{
    let order = match (&first, &second) {
        (Some(a), Some(b)) => uuid_of(a).cmp(uuid_of(b)).then(a.chunk.cmp(&b.chunk)),
        _ => Ordering::Equal,
    };
    drop(first);
    drop(second);
    order
}

fn uuid_of(line: &ChunkLine) -> &[u8]
    ensures { result.now ≡ line.entry.now.uuid }
{
    line.uuid.view().as_bytes()
}
