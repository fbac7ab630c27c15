//! A run under way. It has the store and the stock, and answers each line.
ghost use Rattle.std.specs.Prelude.{◌≡◌, ◌++◌, None};
ghost use Rattle.tg_script.specs.Inner.Run.{making_answer, values_back};
ghost use Rattle.tg_script.specs.Inner.Supply.{values_left};

use crate::collector::Collector;
use crate::helpers::Helpers;
use crate::refusals::{apply_refusal, create_answer};
use crate::supply::Supply;
use crate::telling::Holding;
use tg_model::{Command, Making, Reply};
use tg_payload::Payload;
use tg_rights::Label;
use tg_store::{CreateRefused, Kind, Store};
use tg_text::{Answer, Line, Refusal};

/// The store, the payloads for the vertices that are still to be made, and how many helpers a collection has.
#[derive(Drop)]
pub(crate) struct Run<P: Payload> {
    pub(crate) store: Store<P>,
    pub(crate) supply: Supply<P>,
    pub(crate) helpers: Helpers,
}

impl<P: Payload> Run<P> {
    ghost use Rattle.std.specs.Prelude.{true};
    ghost use Rattle.tg_script.specs.Opening.{IsAnswerable};
    ghost use Rattle.tg_script.specs.Inner.Run.{EntersLine, Handles, line_making};

    /// Runs a line and returns its answer. No line fails. If memory or room runs out, the answer says so.
    #[inline(always)]
    pub(crate) fn answer<H: Holding, C: Collector>(&mut self, collector: &C, line: Line) -> Answer
        requires answerable { IsAnswerable C.Ready line }
        ensures answered { Handles self.old line result self.new }
        ensures entered { EntersLine H.holds self.old line result self.new }
    {
        match line {
            Line::Create { worker, label } => self.make(worker, Making::Object, label),
            Line::Spawn { worker, label } => self.make(worker, Making::Subject, label),
            Line::Plain { worker, command } => self.apply::<H>(worker, command),
            Line::Full => self.collect_all(collector),
            Line::Minor => self.collect_nurseries(collector),
            Line::Edge(_) => unreachable!(),
        }
    }

    #[inline(always)]
    fn apply<H: Holding>(&mut self, worker: u64, command: Command) -> Answer
        ensures answered { Handles self.old (Line.Plain worker command) result self.new }
        ensures entered { EntersLine H.holds self.old (Line.Plain worker command) result self.new }
    {
        match self.store.apply(worker, command) {
            Ok(reply) => {
                H::heed(&mut self.store, &reply);
                Answer::Reply(reply)
            }
            Err(fault) => Answer::Refused(apply_refusal(fault)),
        }
    }

    fn collect_all<C: Collector>(&mut self, collector: &C) -> Answer
        requires { C.Ready }
        ensures answered { Handles self.old Line.Full result self.new }
        ensures entered { EntersLine true self.old Line.Full result self.new }
    {
        match collector.collect(&mut self.store, Kind::Full, self.helpers) {
            Ok(kept) => Answer::Collected(Some(kept)),
            Err(refusal) => Answer::Refused(refusal),
        }
    }

    // The reply doesn't say how many vertices the heap then has, because the graph doesn't determine it.
    fn collect_nurseries<C: Collector>(&mut self, collector: &C) -> Answer
        requires { C.Ready }
        ensures answered { Handles self.old Line.Minor result self.new }
        ensures entered { EntersLine true self.old Line.Minor result self.new }
    {
        match collector.collect(&mut self.store, Kind::Nursery, self.helpers) {
            Ok(_) => Answer::Collected(None),
            Err(refusal) => Answer::Refused(refusal),
        }
    }

    // The first payload of the stock goes to the new vertex.
    #[inline(always)]
    fn make(&mut self, worker: u64, kind: Making, label: Label) -> Answer
        ensures answered { Handles self.old (line_making kind worker label) result self.new }
        ensures entered { EntersLine true self.old (line_making kind worker label) result self.new }
    {
        match self.supply.take() {
            Some(draft) => {
                let made = self.store.make(worker, kind, label, draft);
                tell(&mut self.supply, made)
            }
            None => Answer::Refused(Refusal::Stock),
        }
    }
}

// The answer to a line that was to make a vertex. Where none was made, the payload is put back.
#[inline(always)]
fn tell<P: Payload>(supply: &mut Supply<P>, made: Result<u64, CreateRefused<P>>) -> Answer
    requires { supply.old.front ≡ None }
    ensures answer { result ≡ making_answer made }
    ensures stock { values_left supply.new ≡ values_back made ++ values_left supply.old }
{
    match made {
        Ok(name) => Answer::Reply(Reply::Name(name)),
        Err(refused) => {
            let CreateRefused { draft, why } = refused;
            supply.put_back(draft);
            create_answer(why)
        }
    }
}
