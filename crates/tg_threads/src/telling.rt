//! The text that is written of a race in the end. It has the replies to its lines, or its entries.
ghost use Rattle.std.specs.Prelude.{◌≡◌, ◌≤◌, ◌++◌, [], drop, length};
ghost use Rattle.std.specs.List.{All};
ghost use Rattle.tg_text.specs.Sinks.{Writes};
ghost use Rattle.tg_text.specs.Texts.{answer_text};
ghost use Rattle.tg_threads.specs.Output.{RaceText, RaceTextOn, entry_race, entry_race_on, reply_race, reply_race_on};
ghost use Rattle.tg_threads.specs.Tasks.{MayTell, MayTellOn};
ghost use Rattle.tg_threads.specs.Telling.{IsThere, end_text, text_of_told, told_answer};

use crate::task::Told;
use itoa::Buffer;
use tg_entries::{write_end, write_entries, write_history};
use tg_journal::{Entry, Journal};
use tg_model::Opening;
use tg_text::{Answer, Sink, WriteFailed, put_texts, write_reply, write_reply_of};

/// The kind of text that is written of a race in the end.
pub trait RaceTelling {
    ghost use Rattle.std.specs.Prelude.{drop};
    ghost use Rattle.tg_text.specs.Sinks.{Writes};
    ghost use Rattle.tg_threads.specs.Output.{RaceText, RaceTextOn};
    ghost use Rattle.tg_threads.specs.Tasks.{MayTell, MayTellOn};
    ghost use Rattle.tg_threads.specs.Telling.{text_of_told};

    /// The text of all of it.
    ghost race_text: { RaceText };

    /// The text of a race that goes on from a history.
    ghost race_text_on: { RaceTextOn };

    /// Writes the report, or a front of it if the sink fails. The journal has all its entries, and so many of them were
    /// audited. Takes no memory.
    fn tell<K: Sink>(
        sink: &mut K,
        opening: &Opening,
        journal: &Journal,
        told: &[Told],
        audited: u64,
    ) -> Result<(), WriteFailed>
        requires { MayTell journal.now.start journal.now.entries told.now audited }
        ensures { Writes (K.taken sink.old) (K.failures sink.old)
            (race_text opening.now journal.now.entries (text_of_told journal.now.entries told.now)) result
            (K.taken sink.new) (K.failures sink.new) };

    /// Writes the report of a race that goes on from a history, or a front of it if the sink fails. The entries of the
    /// race begin at the place `first` of the journal. So many entries were audited with those of the history. Takes no
    /// memory.
    fn tell_on<K: Sink>(
        sink: &mut K,
        journal: &Journal,
        first: u64,
        told: &[Told],
        audited: u64,
    ) -> Result<(), WriteFailed>
        requires { MayTellOn journal.now.start first journal.now.entries told.now }
        ensures { Writes (K.taken sink.old) (K.failures sink.old)
            (race_text_on audited (drop first journal.now.entries) (text_of_told journal.now.entries told.now)) result
            (K.taken sink.new) (K.failures sink.new) };
}

/// The reply to each line, in script order, and after them the number of entries.
pub struct Replies;

impl RaceTelling for Replies {
    ghost race_text = { reply_race };

    ghost race_text_on = { reply_race_on };

    fn tell<K: Sink>(
        sink: &mut K,
        _opening: &Opening,
        journal: &Journal,
        told: &[Told],
        audited: u64,
    ) -> Result<(), WriteFailed> {
        tell_all(sink, journal, told, audited)
    }

    fn tell_on<K: Sink>(
        sink: &mut K,
        journal: &Journal,
        _first: u64,
        told: &[Told],
        audited: u64,
    ) -> Result<(), WriteFailed> {
        tell_all(sink, journal, told, audited)
    }
}

/// The text of the history, with its entries in the order of the lock.
pub struct Entries;

impl RaceTelling for Entries {
    ghost race_text = { entry_race };

    ghost race_text_on = { entry_race_on };

    fn tell<K: Sink>(
        sink: &mut K,
        opening: &Opening,
        journal: &Journal,
        _told: &[Told],
        _audited: u64,
    ) -> Result<(), WriteFailed> {
        write_history(sink, opening, journal.entries())
    }

    fn tell_on<K: Sink>(
        sink: &mut K,
        journal: &Journal,
        first: u64,
        _told: &[Told],
        audited: u64,
    ) -> Result<(), WriteFailed> {
        write_since(sink, entries_from(journal, first), audited)
    }
}

// The entries that the journal holds from a place on.
fn entries_from(journal: &Journal, first: u64) -> &[Entry]
    requires held { journal.now.start ≤ first }
    requires within { first ≤ length journal.now.entries }
    ensures { result.now ≡ drop first journal.now.entries }
{
    let held = (first - journal.start()) as usize;
    &journal.entries()[held..]
}

// Writes the lines of the entries, and the number of all.
fn write_since<K: Sink>(sink: &mut K, entries: &[Entry], total: u64) -> Result<(), WriteFailed>
    ensures { Writes (K.taken sink.old) (K.failures sink.old) (entry_race_on total entries.now []) result (K.taken sink.new) (K.failures sink.new) }
{
    write_entries(sink, entries)?;
    write_end(sink, total)
}

/// Writes the reply to each line, and after them the line with the number of entries that were audited. The journal
/// holds the entry of each result. If the sink fails, a front of this is written. Takes no memory.
pub fn tell_all<K: Sink>(
    sink: &mut K,
    journal: &Journal,
    told: &[Told],
    audited: u64,
) -> Result<(), WriteFailed>
    requires there { All (IsThere journal.now.start journal.now.entries) told.now }
    ensures { Writes (K.taken sink.old) (K.failures sink.old) (text_of_told journal.now.entries told.now ++ end_text audited) result (K.taken sink.new) (K.failures sink.new) }
{
    tell_lines(sink, journal, told)?;
    tell_end(sink, audited)
}

// Writes the reply to each line.
fn tell_lines<K: Sink>(sink: &mut K, journal: &Journal, told: &[Told]) -> Result<(), WriteFailed>
    requires there { All (IsThere journal.now.start journal.now.entries) told.now }
    ensures { Writes (K.taken sink.old) (K.failures sink.old) (text_of_told journal.now.entries told.now) result (K.taken sink.new) (K.failures sink.new) }
{
    for one in told {
        tell(sink, journal, *one)?;
    }
    Ok(())
}

fn tell<K: Sink>(sink: &mut K, journal: &Journal, told: Told) -> Result<(), WriteFailed>
    requires there { IsThere journal.now.start journal.now.entries told }
    ensures { Writes (K.taken sink.old) (K.failures sink.old) (answer_text (told_answer journal.now.entries told)) result (K.taken sink.new) (K.failures sink.new) }
{
    match told {
        Told::Entered { at } => write_reply_of(sink, &journal.entry(at).reply),
        Told::Collected(kept) => write_reply(sink, &Answer::Collected(kept)),
        Told::Refused(refusal) => write_reply(sink, &Answer::Refused(refusal)),
    }
}

// The line with the number of entries.
fn tell_end<K: Sink>(sink: &mut K, entries: u64) -> Result<(), WriteFailed>
    ensures { Writes (K.taken sink.old) (K.failures sink.old) (end_text entries) result (K.taken sink.new) (K.failures sink.new) }
{
    let mut buffer = Buffer::new();
    put_texts(
        sink,
        &[
            b"entries ",
            buffer.format(entries).as_bytes(),
            b" audit ok\n",
        ],
    )
}
