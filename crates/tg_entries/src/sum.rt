//! The SHA-256 of a part of a history, and the head of the next part.
ghost use Rattle.std.specs.Prelude.{◌≡◌, ◌<◌, ◌++◌, List, ℕ, None, Some, IfOk, IfSome};
ghost use Rattle.sha2.specs.Sha256.{sha256};
ghost use Rattle.tg_text.specs.Sinks.{Writes};
ghost use Rattle.tg_entries.specs.Texts.{IsAuditedAfter, IsHeadAfter, part_head_text};

use crate::fault::TextFault;
use crate::kept::Means;
use crate::stream::{audit_named, audit_to_snapshot};
use crate::summed::{Summed, Tape};
use crate::write::write_sum;
use std::alloc::{AllocError, Global};
use std::io::{self, BufRead, BufReader, Read};
use std::marker::Brand;
use std::sync::ledger::{Blank, Ledger};
use tg_saved::write_snapshot;
use tg_snapshot::Snapshot;
use tg_text::{Count, Sink, WriteFailed, Written};

// How many bytes are read at once.
const BLOCK: usize = 65536;

/// The content of the head of a part. It is the snapshot after the last entry of the part before, and the SHA-256 of
/// all bytes of that part.
#[derive(Drop)]
pub struct PartHead {
    pub snapshot: Snapshot,
    pub sum: [u8; 32],
}

/// Reads the text of a part to its end, as [`audit_text`](crate::audit_text) does, and returns how many entries the
/// part has. `Ok` is returned only if the head of the part also has this SHA-256 as that of the part before. A legal
/// part whose head has no sum is the fault `NoSum`, and with another sum it is `OtherSum`. Other faults are those of
/// `audit_text`.
pub fn audit_after<R: BufRead + Drop>(
    alloc: Global,
    reader: &mut R,
    sum: &[u8; 32],
) -> Result<u64, TextFault>
    ensures { IfOk result (λ count. IfSome (R.remaining reader.old) (λ text. IsAuditedAfter sum.now text count)) }
{
    let entered = audit_named::<Brand, R>(Means::auditing(alloc), Blank::new(1), reader)?;
    match entered.before {
        Some(before) if before == *sum => Ok(entered.count),
        Some(_) => Err(TextFault::OtherSum),
        None => Err(TextFault::NoSum),
    }
}

/// Reads the text of a history to its end, as [`audit_text`](crate::audit_text) does, and returns the content of the
/// head of the next part. Reads 65,536 bytes at once. Faults are those of `audit_text`.
pub fn audit_to_head<R: Read + Drop>(alloc: Global, reader: R) -> Result<PartHead, TextFault>
    ensures { IfOk result (λ head. IfSome (R.remaining reader) (λ text. IsHeadAfter text head)) }
{
    audit_summed::<Brand, R>(alloc, reader)
}

// The tape is what the reader has.
fn audit_summed<T: Tape, R: Read + Drop>(alloc: Global, reader: R) -> Result<PartHead, TextFault>
    requires { T.whole ≡ R.remaining reader }
    ensures { IfOk result (λ head. IfSome (R.remaining reader) (λ text. IsHeadAfter text head)) }
{
    let summed = Summed::<T, R>::new(reader);
    let mut buffered = BufReader::with_capacity(alloc, BLOCK, summed)?;
    let snapshot = audit_to_snapshot(alloc, &mut buffered)?;
    let sum = buffered.into_inner().sum();
    Ok(PartHead { snapshot, sum })
}

/// Returns the SHA-256 of all bytes of a reader. Takes no memory. An error of the reader is returned.
pub fn sum_of<R: Read + Drop>(reader: R) -> io::Result<[u8; 32]>
    ensures { IfOk result (λ sum. IfSome (R.remaining reader) (λ text. sum ≡ sha256 text)) }
{
    sum_named::<Brand, R>(reader)
}

// The tape is what the reader has.
fn sum_named<T: Tape, R: Read + Drop>(reader: R) -> io::Result<[u8; 32]>
    requires { T.whole ≡ R.remaining reader }
    ensures { IfOk result (λ sum. IfSome (R.remaining reader) (λ text. sum ≡ sha256 text)) }
{
    let mut summed = Summed::<T, R>::new(reader);
    io::copy(&mut summed, &mut io::sink())?;
    Ok(summed.sum())
}

/// Writes the head of a part, or a front of it if the sink fails. Takes no memory.
pub fn write_part_head<K: Sink>(sink: &mut K, head: &PartHead) -> Result<(), WriteFailed>
    ensures { Writes (K.taken sink.old) (K.failures sink.old) (part_head_text head.now.snapshot head.now.sum) result
        (K.taken sink.new) (K.failures sink.new) }
{
    write_snapshot(sink, &head.snapshot)?;
    write_sum(sink, &head.sum)
}

/// Returns the text of the head of a part. Fails only if memory runs out.
pub fn part_head_bytes(alloc: Global, head: &PartHead) -> Result<Vec<u8>, AllocError>
    ensures { IfOk result (λ text. text.items ≡ part_head_text head.now.snapshot head.now.sum) }
{
    bytes_named::<Brand>(alloc, Blank::new(1), head)
}

// The ledger names the buffer.
fn bytes_named<L: Ledger>(
    alloc: Global,
    blank: Blank,
    head: &PartHead,
) -> Result<Vec<u8>, AllocError>
    requires name { blank.name ≡ L.name }
    requires parts { blank.parts ≡ L.parts }
    requires some { 0 < blank.parts }
    ensures { IfOk result (λ text. text.items ≡ part_head_text head.now.snapshot head.now.sum) }
{
    let mut sink = Written::new(alloc, Count::<L>::new(blank));
    let written = write_part_head(&mut sink, head);
    let Written { bytes, .. } = sink;
    match written {
        Ok(()) => Ok(bytes),
        Err(WriteFailed) => Err(AllocError),
    }
}
