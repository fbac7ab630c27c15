//! A script, run on the plain graph.
ghost use Rattle.std.specs.Prelude.{◌≡◌, ◌<◌, ◌+◌, ◌^◌, length, nat_lt, if◌then◌else◌, IfOk, OnErr, replicate};
ghost use Rattle.tg_model.specs.Making.{deed_making};
ghost use Rattle.tg_model.specs.Rules.{DeedFits};
ghost use Rattle.tg_text.specs.declared.stock.StockItem.TheVariants as StockItem;
ghost use Rattle.tg_plain.specs.Boxes.{value_of_box};

use crate::fault::PlainFault;
use crate::refused::{RefusedLine, note};
use crate::script::Script;
use std::alloc::{AllocError, Global};
use tg_model::{Deed, Graph, Law, Making, Numbers, Opening, Picture, Value};
use tg_rights::Label;
use tg_text::{Answer, Line, Refusal, StockItem};

/// The run of a script's lines. It has the graph that they leave, and how many boxes of the stock were taken.
#[derive(Drop)]
pub struct PlainRun {
    /// The graph that the lines so far leave.
    pub graph: Graph,
    /// How many boxes of the stock they took.
    pub taken: usize,
}

impl PlainRun {
    ghost use Rattle.tg_model.specs.Picture.{IsPictureOf};
    ghost use Rattle.tg_model.specs.Plain.{graph_of};
    ghost use Rattle.tg_plain.specs.Lines.{Leads, MakesOfBoxes, MakesOfStock, RunsScript, Steps, boxes_of, stage_of, start_of_script};

    /// The run of a script's edge lines, which is the graph that the script begins with. `Opening` is returned if the
    /// workers and vertices don't fit each other. Otherwise it fails only when out of memory.
    pub fn open(script: &Script) -> Result<PlainRun, PlainFault>
        ensures { IfOk result (λ run. stage_of run ≡ start_of_script script.now) }
    {
        let edges = Vec::from_slice(script.alloc, script.edges.as_slice())?;
        let values = cells(script.alloc, script.workers)?;
        let opening = Opening::new(script.workers, edges, values, script.max_vertices)?;
        Ok(PlainRun {
            graph: Graph::open(script.alloc, &opening)?,
            taken: 0,
        })
    }

    /// The run of all of a script's lines, and those of them that are denied or refused. Fails as [`PlainRun::open`]
    /// does.
    pub fn of(script: &Script) -> Result<(PlainRun, Vec<RefusedLine>), PlainFault>
        ensures { IfOk result (λ done. RunsScript script.now done.1.items done.0) }
    {
        let mut run = PlainRun::open(script)?;
        let mut refused = Vec::new(script.alloc);
        for line in script.lines.as_slice() {
            let answer = run.take(script, &line.line)?;
            note(&mut refused, line, answer)?;
        }
        Ok((run, refused))
    }

    /// Runs a line with the boxes of this script. Returns its answer. An edge line and a collection do nothing here.
    /// Fails only when out of memory, and nothing changes then.
    pub fn take(&mut self, script: &Script, line: &Line) -> Result<Answer, AllocError>
        ensures ok { IfOk result (λ answer. Leads (boxes_of script.now) (stage_of self.old) line.now answer (stage_of self.new)) }
        ensures err { OnErr result (self.new ≡ self.old) }
    {
        match *line {
            Line::Create { worker, label } => self.make(script, worker, label, Making::Object),
            Line::Spawn { worker, label } => self.make(script, worker, label, Making::Subject),
            Line::Plain { worker, command } => self.apply(worker, &Deed::Plain(command)),
            Line::Full | Line::Minor | Line::Edge(_) => Ok(Answer::Collected(None)),
        }
    }

    /// The picture of the graph. Fails only when out of memory.
    pub fn picture(&self, alloc: Global) -> Result<Picture, AllocError>
        ensures { IfOk result (λ picture. IsPictureOf picture (graph_of self.now.graph)) }
    {
        self.graph.picture(alloc)
    }

    // Makes a subject or an object that stores the next box, where there is one.
    fn make(
        &mut self,
        script: &Script,
        worker: u64,
        label: Label,
        making: Making,
    ) -> Result<Answer, AllocError>
        ensures ok { IfOk result (λ answer. MakesOfBoxes (boxes_of script.now) (stage_of self.old) worker (deed_making making label) answer (stage_of self.new)) }
        ensures err { OnErr result (self.new ≡ self.old) }
    {
        if self.taken < script.stock.len() {
            return self.make_of_stock(script.stock.as_slice(), worker, label, making);
        }
        if script.is_endless {
            return self.apply(worker, &deed_of(label, StockItem::Cell, making));
        }
        Ok(Answer::Refused(Refusal::Stock))
    }

    // Makes a subject or an object that stores the next box of the stock. Where none is made, the box stays.
    fn make_of_stock(
        &mut self,
        stock: &[StockItem],
        worker: u64,
        label: Label,
        making: Making,
    ) -> Result<Answer, AllocError>
        requires { self.old.taken < length stock.now }
        ensures ok { IfOk result (λ answer. MakesOfStock stock.now (stage_of self.old) worker (deed_making making label) answer (stage_of self.new)) }
        ensures err { OnErr result (self.new ≡ self.old) }
    {
        let kind = stock[self.taken];
        let made = self.graph.made();
        let answer = self.apply(worker, &deed_of(label, kind, making))?;
        self.taken = taken_after(self.taken, made, self.graph.made());
        Ok(answer)
    }

    // Has the graph take a deed.
    fn apply(&mut self, worker: u64, deed: &Deed) -> Result<Answer, AllocError>
        requires { DeedFits deed.now }
        ensures ok { IfOk result (λ answer. Steps (graph_of self.old.graph) worker deed.now answer (graph_of self.new.graph)) }
        ensures taken { self.new.taken ≡ self.old.taken }
        ensures err { OnErr result (self.new ≡ self.old) }
    {
        if !self.graph.is_subject(worker) {
            return Ok(Answer::Refused(Refusal::Worker));
        }
        // The worker is a subject, so only memory can be lacking.
        match self.graph.apply(worker, deed) {
            Ok(reply) => Ok(Answer::Reply(reply)),
            Err(_) => Err(AllocError),
        }
    }
}

// How many boxes were taken, where so many were before, and so many vertices were made before and after.
fn taken_after(taken: usize, before: u64, after: u64) -> usize
    requires { taken + 1 < 2 ^ 64 }
    ensures { result ≡ if nat_lt before after then taken + 1 else taken }
{
    if before < after { taken + 1 } else { taken }
}

// As many cells, each with 0.
fn cells(alloc: Global, number: u64) -> Result<Vec<Value>, AllocError>
    ensures { IfOk result (λ values. values.items ≡ replicate number (value_of_box StockItem.Cell)) }
{
    let mut values = Vec::new(alloc);
    for _ in 0..number {
        values.push(value_of(StockItem::Cell))?;
    }
    Ok(values)
}

// The making of a subject or an object that stores a new box.
fn deed_of(label: Label, kind: StockItem, making: Making) -> Deed
    ensures made { result ≡ deed_making making label (value_of_box kind) }
    ensures fits { DeedFits result }
{
    making.deed(label, value_of(kind))
}

/// What a new box stores.
pub fn value_of(kind: StockItem) -> Value
    ensures { result ≡ value_of_box kind }
{
    let (law, state) = match kind {
        StockItem::Cell => (Law::Cell, Numbers::one(0)),
        StockItem::Sum => (Law::Sum, Numbers::one(0)),
        StockItem::Max => (Law::Max, Numbers::one(0)),
        StockItem::Log => (Law::Log(4), Numbers::none()),
    };
    Value { law, state }
}
