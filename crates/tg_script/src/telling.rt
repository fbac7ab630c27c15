//! How the outcome of a line is written. It is the line's reply, or the entry that it made.
ghost use Rattle.std.specs.Prelude.{Bool, false, true};
ghost use Rattle.tg_script.specs.Opening.{IsAnswerable};
ghost use Rattle.tg_script.specs.Inner.Run.{IsAsBefore, IsHeeded};
ghost use Rattle.tg_script.specs.Inner.Telling.{LineText, RunsLine, entry_of_line, reply_of_line};
ghost use Rattle.tg_store.specs.Store.{HandsOut};

use crate::collector::Collector;
use crate::run::Run;
use crate::watch::{NumberedLine, Watch};
use tg_entries::write_entries;
use tg_model::Reply;
use tg_payload::Payload;
use tg_store::Store;
use tg_text::{Sink, WriteFailed, write_reply};

// How many entries a run holds at most, and how many edges a list that it holds.
const MOST_ENTRIES: usize = 32;

const MOST_EDGES: usize = 64;

/// Whether the entries of a command are held until they are reported.
pub(crate) trait Holding {
    ghost use Rattle.std.specs.Prelude.{Bool};
    ghost use Rattle.tg_script.specs.Inner.Run.{IsHeeded};

    /// Whether it is held.
    ghost holds: { Bool };

    /// Prepares the store for the report of a command that has this reply.
    fn heed<P: Payload>(store: &mut Store<P>, reply: &Reply)
        ensures { IsHeeded holds store.old store.new };
}

/// How the result of a line is reported. A run has the same promise with each way.
pub(crate) trait Telling {
    ghost use Rattle.std.specs.Prelude.{◌≡◌, Bool, true};
    ghost use Rattle.tg_script.specs.Opening.{IsAnswerable};
    ghost use Rattle.tg_script.specs.Inner.Telling.{LineText, RunsLine};

    /// The text that reports a line.
    ghost told: { LineText };

    /// Whether all entries are held, also those of lines before.
    ghost holds_all: { Bool };

    /// Answers the line, shows the answer to the watch, and writes the text that reports it.
    fn run_line<P: Payload, C: Collector, K: Sink, W: Watch>(
        run: &mut Run<P>,
        collector: &C,
        sink: &mut K,
        watch: &mut W,
        numbered: NumberedLine,
    ) -> Result<(), WriteFailed>
        requires answerable { IsAnswerable C.Ready numbered.line }
        ensures told { RunsLine told run.old numbered.line run.new (K.taken sink.old) (K.failures sink.old) result (K.taken sink.new) (K.failures sink.new) (W.refused watch.old) (W.refused watch.new) }
        ensures held { holds_all ≡ true → run.new.store.handed ≡ run.old.store.handed };
}

/// Each line is reported by its reply. Entries are given up, many at a time, and a long list at once.
pub(crate) struct ByReply;

impl Holding for ByReply {
    ghost holds = { false };

    #[inline(always)]
    fn heed<P: Payload>(store: &mut Store<P>, reply: &Reply) {
        if is_long(reply) {
            give_up_entries(store);
        }
    }
}

impl Telling for ByReply {
    ghost told = { reply_of_line };

    ghost holds_all = { false };

    #[inline(always)]
    fn run_line<P: Payload, C: Collector, K: Sink, W: Watch>(
        run: &mut Run<P>,
        collector: &C,
        sink: &mut K,
        watch: &mut W,
        numbered: NumberedLine,
    ) -> Result<(), WriteFailed> {
        give_up_many(&mut run.store);
        let answer = run.answer::<ByReply, C>(collector, numbered.line);
        watch.see(&numbered, &answer);
        write_reply(sink, &answer)
    }
}

/// Each line is reported by the entry that it made, if it made one. The entry is given up once it was written.
pub(crate) struct ByEntry;

impl Holding for ByEntry {
    ghost holds = { true };

    #[inline(always)]
    fn heed<P: Payload>(_store: &mut Store<P>, _reply: &Reply) {}
}

impl Telling for ByEntry {
    ghost told = { entry_of_line };

    ghost holds_all = { false };

    fn run_line<P: Payload, C: Collector, K: Sink, W: Watch>(
        run: &mut Run<P>,
        collector: &C,
        sink: &mut K,
        watch: &mut W,
        numbered: NumberedLine,
    ) -> Result<(), WriteFailed> {
        // Those of the lines before were written.
        give_up_entries(&mut run.store);
        let answer = run.answer::<ByEntry, C>(collector, numbered.line);
        watch.see(&numbered, &answer);
        write_entries(sink, run.store.journal().entries())
    }
}

/// Each line is reported by its reply, and all entries are held. Somebody else gives them up.
pub(crate) struct ByHeldReply;

impl Holding for ByHeldReply {
    ghost holds = { true };

    #[inline(always)]
    fn heed<P: Payload>(_store: &mut Store<P>, _reply: &Reply) {}
}

impl Telling for ByHeldReply {
    ghost told = { reply_of_line };

    ghost holds_all = { true };

    fn run_line<P: Payload, C: Collector, K: Sink, W: Watch>(
        run: &mut Run<P>,
        collector: &C,
        sink: &mut K,
        watch: &mut W,
        numbered: NumberedLine,
    ) -> Result<(), WriteFailed> {
        let answer = run.answer::<ByHeldReply, C>(collector, numbered.line);
        watch.see(&numbered, &answer);
        write_reply(sink, &answer)
    }
}

// Gives up what was entered, where it is many entries. A run's output is its journal.
#[inline(always)]
fn give_up_many<P: Payload>(store: &mut Store<P>)
    ensures { IsAsBefore store.old store.new }
{
    if store.journal().entries().len() >= MOST_ENTRIES {
        give_up_entries(store);
    }
}

// Gives up what was entered.
#[cold]
fn give_up_entries<P: Payload>(store: &mut Store<P>)
    ensures { HandsOut store.old store.new }
{
    let made = store.journal().len();
    store.forget(made);
}

// Whether the reply is a long list. No other reply takes much memory.
#[inline(always)]
fn is_long(reply: &Reply) -> bool {
    match reply {
        Reply::Edges(edges) => edges.as_slice().len() > MOST_EDGES,
        _ => false,
    }
}
