//! A script that is run part by part, on one store.
ghost use Rattle.std.specs.Prelude.{◌≡◌, ◌+◌, ◌≤◌, IfErr, IfOk, length};
ghost use Rattle.tg_script.specs.Inner.Parts.{TakesFirst};
ghost use Rattle.tg_script.specs.Lines.{IsOfReading, read_failures};
ghost use Rattle.tg_script.specs.Parts.{GivesUp, HasOpenedScript, IsOnStore, IsWaiting, OpensScript, RunsPart, StartsParts};
ghost use Rattle.tg_script.specs.Running.{IsDue};
ghost use Rattle.tg_script.specs.Script.{MayStart, start_of_setup};

use crate::collector::Collector;
use crate::helpers::Helpers;
use crate::run::Run;
use crate::run_script::{Begun, RunSetup, begin, run_commands};
use crate::script::Script;
use crate::supply::Supply;
use crate::telling::ByHeldReply;
use crate::watch::Watch;
use std::alloc::Global;
use tg_payload::{Draft, Payload};
use tg_store::Store;
use tg_text::{Line, ScriptFault, Sink, Source};

/// What is left of a script that is run part by part, without its store. It has the payloads that are left, and where
/// the lines are.
#[derive(Drop)]
pub struct ScriptLeft<P: Payload> {
    pub(crate) script: Script,
    pub(crate) first: Option<Line>,
    pub(crate) supply: Supply<P>,
    pub(crate) helpers: Helpers,
}

/// A store that a script's edge lines have opened, and what is left of the script.
#[derive(Drop)]
pub struct OpenedScript<P: Payload> {
    pub store: Store<P>,
    pub left: ScriptLeft<P>,
}

/// A script of which parts are run on one store, one after the other. Lines are counted over all parts.
#[derive(Drop)]
pub struct ScriptRun<P: Payload> {
    pub(crate) begun: Begun<P>,
}

/// Reads the edge lines of a script and the first line after them, and opens the store. The refusals are those of
/// [`run_script_with`](crate::run_script_with). No line after the edges was run.
pub fn open_script<P: Payload, S: Source, K: Sink>(
    alloc: Global,
    source: &mut S,
    sink: &mut K,
    setup: RunSetup<P>,
) -> Result<OpenedScript<P>, ScriptFault>
    requires startable { MayStart setup.settings setup.workers.items }
    ensures opened { IfOk result (HasOpenedScript (start_of_setup setup)) }
    ensures bytes { OpensScript S.left source.old source.new (start_of_setup setup) result }
    ensures due { IfErr result (IsDue (start_of_setup setup)) }
{
    let Begun { run, script, first } = begin(alloc, source, sink, setup)?;
    let Run {
        store,
        supply,
        helpers,
    } = run;
    let left = ScriptLeft {
        script,
        first,
        supply,
        helpers,
    };
    Ok(OpenedScript { store, left })
}

impl<P: Payload> ScriptLeft<P> {
    /// A script of which no line was read, with these payloads for the vertices that it makes. No line may be an edge
    /// line.
    pub fn new(helpers: Helpers, stock: Vec<Draft<P>>) -> ScriptLeft<P>
        ensures { StartsParts helpers stock.items result }
    {
        ScriptLeft {
            script: Script::new(0),
            first: None,
            supply: Supply::new(stock),
            helpers,
        }
    }

    /// The script on a store.
    pub fn on(self, store: Store<P>) -> ScriptRun<P>
        ensures { IsOnStore self store result }
    {
        let ScriptLeft {
            script,
            first,
            supply,
            helpers,
        } = self;
        let run = Run {
            store,
            supply,
            helpers,
        };
        ScriptRun {
            begun: Begun { run, script, first },
        }
    }
}

impl<P: Payload> ScriptRun<P> {
    /// The store.
    pub fn store(&self) -> &Store<P>
        ensures { result.now ≡ self.now.begun.run.store }
    {
        &self.begun.run.store
    }

    /// The text of the line that came last, without its line feed. It may be a bad line.
    pub fn last_line(&self) -> &[u8] {
        self.begun.script.buffer.as_slice()
    }

    /// Gives up the entries before a place, as [`Store::forget`](tg_store::Store::forget) does.
    pub fn forget(&mut self, upto: u64)
        requires { (self.old.begun.run.store.handed ≤ upto) × (upto ≤ length self.old.begun.run.store.entries) }
        ensures { GivesUp upto self.old self.new }
    {
        self.begun.run.store.forget(upto);
    }

    /// Runs a part of the script, and writes the replies. The part goes on after the lines of the parts before. It has
    /// the line that was read and not run, if there is one, and then the lines of the source, up to its end.
    ///
    /// Each line is answered as by [`run_script_watched`](crate::run_script_watched). All entries are held.
    pub fn run_part<C: Collector, S: Source, K: Sink, W: Watch>(
        &mut self,
        collector: &C,
        source: &mut S,
        sink: &mut K,
        watch: &mut W,
    ) -> Result<(), ScriptFault>
        requires ready { C.Ready }
        requires waits { IsWaiting self.old.begun.script self.old.begun.first }
        ensures ran { RunsPart S.left K.taken W.refused source.old source.new sink.old sink.new watch.old watch.new self.old self.new result }
        ensures held { self.new.begun.run.store.handed ≡ self.old.begun.run.store.handed }
        ensures fault { IfErr result IsOfReading }
        ensures read_failed { S.failures source.new ≡ S.failures source.old + read_failures result }
    {
        self.take_first(source, sink)?;
        let outcome = run_commands::<P, ByHeldReply, C, S, K, W>(
            &mut self.begun,
            collector,
            source,
            sink,
            watch,
        );
        self.begun.first = None;
        // It tells that the entries are a legal history, whatever came of the lines.
        let _ = self.begun.run.store.journal();
        outcome
    }

    // Reads the first line of a part, unless one was read before.
    fn take_first<S: Source, K: Sink>(
        &mut self,
        source: &mut S,
        sink: &mut K,
    ) -> Result<(), ScriptFault>
        requires { IsWaiting self.old.begun.script self.old.begun.first }
        ensures waits { IsWaiting self.new.begun.script self.new.begun.first }
        ensures run { self.new.begun.run ≡ self.old.begun.run }
        ensures first { TakesFirst S.left K.taken source.old source.new sink.old sink.new self.old self.new result }
        ensures fault { IfErr result IsOfReading }
        ensures read_failed { S.failures source.new ≡ S.failures source.old + read_failures result }
    {
        if self.begun.first.is_some() {
            return Ok(());
        }
        self.begun.script.opening = false;
        self.begun.first = self.begun.script.next(source, sink)?;
        Ok(())
    }
}
