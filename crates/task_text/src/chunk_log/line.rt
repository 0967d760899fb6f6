// The lines of a chunk log.
ghost use Rattle.std.specs.Prelude.{◌≡◌, ◌<◌, IfOk, IfSome, MatchResult, Some};
ghost use Rattle.uuid.specs.Text.{hyphenated_text, lower, parsed};
ghost use Rattle.task_text.specs.ChunkLog.ChunkLines.{counts_in, uuid_in, IsChunkLine, IsRefused, IsWritable};

use crate::chunk_log::error::ChunkError;
use crate::chunk_log::scan;
use crate::chunk_log::stamp::Stamp;
use ann_key::{NoMemory, Text, cut_at, has_byte, number_of};
use std::alloc::Global;
use uuid::Uuid;

/// How many chunks of a size a remote has of a key, and since when. A count of 0 says that it has none.
///
/// <https://git-annex.branchable.com/internals/>
#[derive(Drop)]
pub struct ChunkLine {
    pub stamp: Stamp,
    /// The remote's UUID, in lower case and with hyphens.
    pub uuid: Text,
    /// The size of a chunk in bytes.
    pub chunk: u64,
    pub count: u64,
}

/// Reads a line, as in `1287290776.765152s UUID:10240 9`.
pub fn read_line(alloc: Global, line: &[u8]) -> Result<ChunkLine, ChunkError>
    ensures read { MatchResult result (λ read. IsChunkLine line.now read) (λ error. IsRefused line.now error) }
    ensures writable { IfOk result (λ read. IsWritable read) }
{
    let (stamp, rest) = cut_at(line, b' ');
    let Some(stamp) = Stamp::read(stamp) else {
        return Err(ChunkError::BadStamp);
    };
    let (word, count) = cut_at(rest, b' ');
    let Some(uuid) = uuid_in(word) else {
        return Err(ChunkError::BadUuid);
    };
    let Some((chunk, count)) = counts_in(word, count) else {
        return Err(ChunkError::BadCount);
    };
    let uuid = written(alloc, uuid)?;
    Ok(ChunkLine {
        stamp,
        uuid,
        chunk,
        count,
    })
}

fn uuid_in(word: &[u8]) -> Option<Uuid>
    ensures { result ≡ uuid_in word.now }
{
    if has_byte(word, b':') {
        parsed(scan::before_last(word, b':'))
    } else {
        None
    }
}

fn parsed(text: &[u8]) -> Option<Uuid>
    ensures { result ≡ parsed text.now }
{
    match Uuid::try_parse_ascii(text) {
        Ok(uuid) => Some(uuid),
        Err(_) => None,
    }
}

fn counts_in(word: &[u8], count: &[u8]) -> Option<(u64, u64)>
    ensures value { result ≡ counts_in word.now count.now }
    ensures chunk { IfSome result (λ counts. 0 < counts.0) }
{
    match number_of(scan::after_last(word, b':')) {
        Some(chunk) if chunk != 0 => match number_of(count) {
            Some(count) => Some((chunk, count)),
            None => None,
        },
        _ => None,
    }
}

fn written(alloc: Global, uuid: Uuid) -> Result<Text, NoMemory>
    ensures text { IfOk result (λ text. text ≡ hyphenated_text lower uuid) }
    ensures parsed { IfOk result (λ text. parsed text ≡ Some uuid) }
{
    let mut buffer = [0; 36];
    Text::copy(alloc, uuid.hyphenated().encode_lower(&mut buffer))
}
