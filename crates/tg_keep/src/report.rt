//! A report on the bytes of a file of lines, for a program that only reads the file.
ghost use Rattle.std.specs.Prelude.{◌≡◌, [], take, IsTrue, IfOk, IfErr, IfSome, IfNone, OnOk};
ghost use Rattle.tg_keep.specs.Lines.{first_sum, length_after, whole_lines};
ghost use Rattle.tg_keep.specs.Opened.{MayOpen, RefusesFile, is_of_disk};
ghost use Rattle.tg_keep.specs.Reports.{Counts, IsReportOn, ReadsWholeLine};

use crate::fault::FileFault;
use crate::line::parts_of;
use crate::reader::{LineReader, first_length};
use crate::scan::lines_end;

/// A report on the bytes of a file.
#[derive(Clone, Copy, Drop)]
pub struct FileReport<'a> {
    /// The whole lines, each with its line feed.
    pub lines: &'a [u8],
    /// The last of these lines, without its line feed.
    pub last: &'a [u8],
    /// How many lines there are.
    pub count: usize,
    /// How many of the lines begin a batch.
    pub batches: usize,
    /// Whether the last run ended by [`LineFile::close`](crate::LineFile::close). If it didn't, it ended by a crash, or
    /// is still writing.
    pub was_closed: bool,
}

// A whole line, without its line feed, and whether it begins a batch.
#[derive(Clone, Copy, Drop)]
pub(crate) struct WholeLine<'a> {
    pub(crate) bytes: &'a [u8],
    pub(crate) begins: bool,
}

// How many lines a file has, how many batches, its last line, and the bytes after that.
#[derive(Clone, Copy, Drop)]
pub(crate) struct Counted<'a> {
    pub(crate) count: usize,
    pub(crate) batches: usize,
    pub(crate) last: &'a [u8],
    pub(crate) left: &'a [u8],
}

/// Reports on the bytes of a file. The call accepts and refuses the same bytes as
/// [`LineFile::open`](crate::LineFile::open), and changes nothing. `NotKept` says that the file isn't one of ours.
/// `Damaged` says that a line isn't whole, and that a later batch was begun after it.
pub fn report_of(file: &[u8]) -> Result<FileReport, FileFault>
    ensures report { IfOk result (IsReportOn file.now) }
    ensures opens { OnOk result (MayOpen file.now) }
    ensures refused { IfErr result (RefusesFile file.now) }
    ensures own { IfErr result (λ fault. IsTrue (is_of_disk fault) → ⊥) }
{
    let end = lines_end(file)?;
    let counted = count_lines(file);
    Ok(FileReport {
        lines: &file[..end.at],
        last: counted.last,
        count: counted.count,
        batches: counted.batches,
        was_closed: end.closed,
    })
}

/// Returns the whole lines of a file, each with its line feed. They end before a damage, and before an end that was cut
/// off. A file that isn't one of ours may have such lines too.
pub fn whole_front(file: &[u8]) -> &[u8]
    ensures { result.now ≡ take (length_after first_sum file.now) file.now }
{
    let counted = count_lines(file);
    &file[..file.len() - counted.left.len()]
}

// Counts the whole lines of a file and their batches.
pub(crate) fn count_lines(file: &[u8]) -> Counted
    ensures { Counts file.now result }
{
    let mut reader = LineReader::new(file);
    let mut count = 0;
    let mut batches = 0;
    let mut last = &file[..0];
    while let Some(line) = next_line(&mut reader) {
        count += 1;
        batches += usize::from(line.begins);
        last = line.bytes;
    }
    Counted {
        count,
        batches,
        last,
        left: reader.left,
    }
}

// Reads the next line as `LineReader::next` does, and returns all of it.
fn next_line<'a>(reader: &mut LineReader<'a>) -> Option<WholeLine<'a>>
    ensures read { IfSome result (λ line. ReadsWholeLine reader.old.sum.digits reader.old.left.now line.bytes.now line.begins reader.new.sum.digits reader.new.left.now) }
    ensures end { IfNone result (whole_lines reader.old.sum.digits reader.old.left.now ≡ []) }
    ensures unchanged { IfNone result (reader.new ≡ reader.old) }
{
    let length = first_length(reader.left)?;
    let bytes = &reader.left[..length];
    let parts = parts_of(&reader.sum.digits, bytes)?;
    reader.left = &reader.left[length + 1..];
    reader.sum = parts.sum;
    Some(WholeLine {
        bytes,
        begins: parts.begins,
    })
}
