//! A line that is read piece by piece.
ghost use Rattle.std.specs.Prelude.{◌≡◌, ◌++◌, ◌+◌, ◌≤◌, length, take, drop, IfOk, OnOk, OnSome, IsTrue};
ghost use Rattle.std.specs.Io.KnownBytes.{IsAtEnd};
ghost use Rattle.tg_entries.specs.Pieces.{FetchesPiece, Loses};

use std::io::{self, BufRead, ErrorKind};

/// Puts the next bytes of a line after those at hand, until the line is whole or so many bytes are at hand. The answer
/// is whether the text ends there, without a line feed.
pub(crate) fn read_some<R: BufRead>(
    reader: &mut R,
    most: usize,
    line: &mut Vec<u8>,
) -> io::Result<bool>
    ensures fetched { OnOk result (FetchesPiece line.old.items (R.remaining reader.old) line.new.items (R.remaining reader.new)) }
    ensures ended { IfOk result (λ ended. IsTrue ended → OnSome (R.remaining reader.old) (IsAtEnd (R.remaining reader.new))) }
    ensures within { length line.old.items ≤ most → length line.new.items ≤ most }
{
    for _ in 0..u64::MAX {
        let room = most.saturating_sub(line.len());
        if room == 0 || line.ends_with(b"\n") {
            return Ok(false);
        }
        if take_piece(reader, room, line)? {
            return Ok(true);
        }
    }
    Ok(false)
}

// Puts the bytes that the reader holds of a line after those at hand, no more than so many. Whether the text ends
// there. An interruption puts none.
fn take_piece<R: BufRead>(reader: &mut R, most: usize, line: &mut Vec<u8>) -> io::Result<bool>
    ensures fetched { OnOk result (FetchesPiece line.old.items (R.remaining reader.old) line.new.items (R.remaining reader.new)) }
    ensures ended { IfOk result (λ ended. IsTrue ended → OnSome (R.remaining reader.old) (IsAtEnd (R.remaining reader.new))) }
    ensures within { length line.new.items ≤ length line.old.items + most }
{
    let shown = match reader.fill_buf() {
        Ok(shown) => shown,
        Err(error) => {
            return if error.kind() == ErrorKind::Interrupted {
                Ok(false)
            } else {
                Err(error)
            };
        }
    };
    let count = line_len(shown, most);
    line.extend_from_slice(&shown[..count])?;
    let ended = shown.is_empty();
    reader.consume(count);
    Ok(ended)
}

// How many of the bytes are the line's: those through the first line feed, and no more than so many.
fn line_len(shown: &[u8], most: usize) -> usize
    ensures inside { result ≤ length shown.now }
    ensures within { result ≤ most }
{
    let reach = shown.len().min(most);
    for at in 0..reach {
        if shown[at] == b'\n' {
            return at + 1;
        }
    }
    reach
}

/// Whether the text comes next in the line. Then it is taken.
pub(crate) fn takes<R: BufRead>(reader: &mut R, line: &mut Vec<u8>, text: &[u8]) -> io::Result<bool>
    ensures { IfOk result (λ same. IsTrue same → Loses line.old.items (R.remaining reader.old) text.now line.new.items (R.remaining reader.new)) }
{
    read_some(reader, text.len(), line)?;
    if !begins_with(line.as_slice(), text) {
        return Ok(false);
    }
    drop_front(line, text.len());
    Ok(true)
}

fn begins_with(bytes: &[u8], text: &[u8]) -> bool
    ensures fits { IsTrue result → length text.now ≤ length bytes.now }
    ensures same { IsTrue result → take (length text.now) bytes.now ≡ text.now }
{
    text.len() <= bytes.len() && &bytes[..text.len()] == text
}

/// Drops so many of the bytes, from the front.
pub(crate) fn drop_front(line: &mut Vec<u8>, many: usize)
    requires { many ≤ length line.old.items }
    ensures { line.new.items ≡ drop many line.old.items }
{
    line.copy_within(many.., 0);
    line.truncate(line.len() - many);
}
