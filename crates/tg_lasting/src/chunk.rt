//! The parts of a script, as they come from a reader.
ghost use Rattle.std.specs.Prelude.{◌≡◌, ◌≢◌, ◌<◌, ◌≤◌, ◌+◌, [], IfOk, List, ℕ, Some, false, length, take, true};
ghost use Rattle.tg_text.specs.Fetching.{IsOneLine};
ghost use Rattle.tg_lasting.specs.Chunks.{ComesNext, EndsWithFeed, TakesHeld};

use memchr::memrchr;
use std::io::BufRead;
use tg_script::{MOST_LINE_BYTES, ScriptFault};

// What came from a reader.
#[derive(Clone, Copy)]
enum Came {
    // Bytes up to a line feed.
    Lines,
    // Bytes without a line feed.
    Piece,
    // No byte is left.
    End,
}

// How many of the bytes that a reader holds are taken, and whether the last of them is a line feed.
#[derive(Clone, Copy)]
struct Held {
    count: usize,
    is_ended: bool,
}

/// Takes the next part, and returns whether it is the last one. A part ends with a line feed, unless it is the last
/// one, or a line that is too long. The call waits only if no whole line came yet.
///
/// `ReadFailed` says that the reader failed. `OutOfMemory` says that there was no memory for the part.
pub(crate) fn next_chunk<R: BufRead>(
    reader: &mut R,
    chunk: &mut Vec<u8>,
) -> Result<bool, ScriptFault>
    ensures came { ComesNext (R.remaining reader.old) (R.remaining reader.new) chunk.new.items result }
    ensures some { IfOk result (λ last. last ≡ false → 0 < length chunk.new.items) }
{
    chunk.clear();
    'pieces: while chunk.len() <= MOST_LINE_BYTES {
        match take_held(reader, chunk)? {
            Came::Lines => return Ok(false),
            Came::End => return Ok(true),
            Came::Piece => (),
        }
    }
    Ok(false)
}

// Takes what the reader holds, up to its last line feed. If it holds nothing, it waits for more.
fn take_held<R: BufRead>(reader: &mut R, chunk: &mut Vec<u8>) -> Result<Came, ScriptFault>
    ensures taken { TakesHeld (R.remaining reader.old) (R.remaining reader.new) chunk.old.items chunk.new.items result }
    ensures grows { IfOk result (λ came. came ≢ Came.End → length chunk.old.items < length chunk.new.items) }
{
    let Ok(bytes) = reader.fill_buf() else {
        return Err(ScriptFault::ReadFailed);
    };
    if bytes.is_empty() {
        return Ok(Came::End);
    }
    let Held { count, is_ended } = held_lines(bytes);
    let Ok(()) = chunk.extend_from_slice(&bytes[..count]) else {
        return Err(ScriptFault::OutOfMemory);
    };
    reader.consume(count);
    if is_ended {
        return Ok(Came::Lines);
    }
    Ok(Came::Piece)
}

// How many bytes there are up to the last line feed, or all of them if there is none.
fn held_lines(bytes: &[u8]) -> Held
    requires { bytes.now ≢ [] }
    ensures within { (0 < result.count) × (result.count ≤ length bytes.now) }
    ensures lines { result.is_ended ≡ true → EndsWithFeed (take result.count bytes.now) }
    ensures piece { result.is_ended ≡ false → IsOneLine (take result.count bytes.now) }
{
    match memrchr(b'\n', bytes) {
        Some(at) => Held {
            count: at + 1,
            is_ended: true,
        },
        None => Held {
            count: bytes.len(),
            is_ended: false,
        },
    }
}
