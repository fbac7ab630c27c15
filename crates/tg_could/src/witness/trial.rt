//! A graph on which turns are tried. It is a picture, and what came since.
ghost use Rattle.std.specs.Prelude.{◌≡◌, ◌+◌, ◌<◌, true, ◌++◌, ◌∷◌, [], List, IfOk, IsOk, OnOk, IfSome, IsTrue};
ghost use Rattle.tg_rights.specs.RightSet.{has};
ghost use Rattle.tg_rights.specs.declared.Right.{Right as TheRight};
ghost use Rattle.tg_model.specs.Graph.{ProtectionGraph, without_subject};
ghost use Rattle.tg_model.specs.Picture.{IsPictureOf};
ghost use Rattle.tg_model.specs.Rules.{step};
ghost use Rattle.tg_model.specs.declared.edge.Edge.{Edge as TheEdge};
ghost use Rattle.tg_model.specs.declared.command.Deed.TheVariants as deed;
ghost use Rattle.tg_could.specs.Turns.{Acts};
ghost use Rattle.tg_could.specs.Inner.Trial.{Stands};
ghost use Rattle.tg_could.specs.Inner.Trial.{AreTaken, BeginsAt, HeldByEdges, IsHandedOn, SilentBelow, StandsAfterMaking};
ghost use Rattle.tg_could.specs.Scenes.{OnGraphs, WitnessOf};

use crate::question::{Question, Scene, Witness};
use crate::search::growth::copied;
use crate::separation::conditions::{all_differ, all_hold};
use crate::separation::is_silent;
use crate::witness::chains::{Chains, NONE};
use std::alloc::{AllocError, Global};
use tg_model::{Command, Deed, Edge, Making, Picture};
use tg_rights::{Label, Right, Rights};

/// What turns have changed in a picture's graph. It is the edges that were added, the subjects, and the vertices made.
#[derive(Drop)]
pub(crate) struct Trial {
    pub(crate) rows: Chains,
    added: Vec<Edge>,
    pub(crate) subjects: Vec<u64>,
    pub(crate) made: u64,
    pub(crate) limit: u64,
}

// A take or a grant: the worker has the right `by` over `via`, and the taker gets rights over the target that the giver
// has. For a take the giver is `via` and the taker is the worker, for a grant the other way round.
#[derive(Clone, Copy, Drop)]
struct Transfer {
    worker: u64,
    via: u64,
    target: u64,
    rights: Label,
    by: Right,
    giver: u64,
    taker: u64,
}

// The rights of an edge, where it is one from x to y.
fn rights_between(edge: Edge, x: u64, y: u64) -> Rights
    ensures { (right : TheRight) → has result right ≡ true → (edge.from ≡ x) × (edge.to ≡ y) × (has edge.label right ≡ true) }
{
    if edge.from == x && edge.to == y {
        edge.label.rights()
    } else {
        Rights::empty()
    }
}

// The most vertices that may ever be made, if so many more may be made. There are none past the last number.
fn limit_with(picture: &Picture, names: u64) -> Option<u64>
    ensures { IfSome result (λ limit. limit ≡ picture.now.limit + names) }
{
    picture.limit().checked_add(names)
}

/// Takes a name out of a list.
pub(crate) fn leave_out(names: &mut Vec<u64>, name: u64)
    ensures { names.new.items ≡ without_subject names.old.items name }
{
    names.retain(|other| *other != name);
}

impl Trial {
    /// The graph of a picture. `rows` are the edges from each vertex, and note whether memory ran out.
    pub(crate) fn new(alloc: Global, picture: &Picture, mut rows: Chains) -> Trial
        ensures { IsOk result.rows.grown → (g : ProtectionGraph) → IsPictureOf picture.now g → Stands picture.now.edges result g }
    {
        let subjects = copied(alloc, picture.subjects(), &mut rows.grown);
        Trial {
            rows,
            added: Vec::new(alloc),
            subjects,
            made: picture.made(),
            limit: picture.limit(),
        }
    }

    /// Whether the turns of a witness lead to x's holding a right over y, where as many more vertices may be made as it
    /// says. Fails only when out of memory.
    pub(crate) fn lead_there(
        &mut self,
        scene: &Scene,
        question: Question,
        witness: &Witness,
    ) -> Result<bool, AllocError>
        ensures { IfOk result (λ lead. IsTrue lead → OnGraphs scene.now (λ g.
            BeginsAt scene.now self.old g → WitnessOf scene.now question witness.now g)) }
    {
        self.rows.grown?;
        let Some(limit) = limit_with(scene.picture, witness.names) else {
            return Ok(false);
        };
        let first = scene.picture.made();
        let edges = scene.picture.edges();
        self.limit = limit;
        let taken = self.take_turns(edges, scene.silent, first, witness.turns)?;
        if !taken {
            return Ok(false);
        }
        Ok(self.has_all(edges, question.x, question.y, Rights::of(question.right)))
    }

    /// Whether one vertex has these rights over another, all on one edge of the list or of those that came since.
    pub(crate) fn has_all(&self, edges: &[Edge], from: u64, to: u64, rights: Rights) -> bool
        ensures { IsTrue result → HeldByEdges edges.now self.now from to rights }
    {
        let mut found = Rights::empty();
        let mut next = self.rows.first(from);
        for _ in 0..NONE {
            let Some(link) = self.rows.at(next) else {
                break;
            };
            let Some(edge) = self.edge(edges, link.edge) else {
                break;
            };
            found = found.union(rights_between(edge, from, to));
            if found.contains(rights) {
                return true;
            }
            next = link.next;
        }
        false
    }

    // The edge at a place: first those of the list, then those that came since.
    fn edge(&self, edges: &[Edge], place: u32) -> Option<Edge>
        ensures { IfSome result (λ edge. HeldByEdges edges.now self.now edge.from edge.to edge.label) }
    {
        let at = place as usize;
        if at < edges.len() {
            return Some(edges[at]);
        }
        let later = at - edges.len();
        let added = self.added.as_slice();
        if later < added.len() {
            return Some(added[later]);
        }
        None
    }

    // Whether somebody acts: an active subject that isn't silent.
    fn acts(&self, silent: &[u64], first: u64, worker: u64) -> bool
        ensures { IsTrue result → (edges : List TheEdge) (g : ProtectionGraph) → Stands edges self.now g →
            Acts (SilentBelow silent.now first) g worker }
    {
        self.subjects.contains(&worker) && !is_silent(silent, first, worker)
    }

    // Takes these turns in order, up to one that isn't taken. Whether all were. Fails only when out of memory.
    fn take_turns(
        &mut self,
        edges: &[Edge],
        silent: &[u64],
        first: u64,
        turns: &[(u64, Deed)],
    ) -> Result<bool, AllocError>
        ensures { IfOk result (λ all. IsTrue all → (g : ProtectionGraph) → Stands edges.now self.old g →
            AreTaken edges.now (SilentBelow silent.now first) g turns.now self.new) }
    {
        for turn in turns {
            let taken = self.take_turn(edges, silent, first, turn)?;
            if !taken {
                return Ok(false);
            }
        }
        Ok(true)
    }

    /// Takes a turn of one who acts, if it is allowed and adds rights, makes a vertex or retires. Returns whether it
    /// was taken, and else the graph is as it was. A subject is silent if it is in the list and has a name below
    /// `first`. Fails only when out of memory.
    pub(crate) fn take_turn(
        &mut self,
        edges: &[Edge],
        silent: &[u64],
        first: u64,
        turn: &(u64, Deed),
    ) -> Result<bool, AllocError>
        ensures acts { IfOk result (λ taken. IsTrue taken → (g : ProtectionGraph) → Stands edges.now self.old g →
            Acts (SilentBelow silent.now first) g turn.now.0) }
        ensures step { IfOk result (λ taken. IsTrue taken → (g : ProtectionGraph) → Stands edges.now self.old g →
            Stands edges.now self.new (step g turn.now.0 turn.now.1)) }
    {
        if !self.acts(silent, first, turn.0) {
            return Ok(false);
        }
        let taken = self.take_deed(edges, turn.0, &turn.1)?;
        Ok(taken)
    }

    // Does what an active subject asks for, where that is allowed and adds rights, makes a vertex or retires.
    fn take_deed(&mut self, edges: &[Edge], worker: u64, asked: &Deed) -> Result<bool, AllocError>
        ensures { IfOk result (λ taken. IsTrue taken → (g : ProtectionGraph) → Stands edges.now self.old g →
            Stands edges.now self.new (step g worker asked.now)) }
    {
        match asked {
            Deed::Create { label, .. } => self.make(worker, Making::Object, *label),
            Deed::Spawn { label, .. } => self.make(worker, Making::Subject, *label),
            Deed::Plain(command) => self.take_command(edges, worker, command),
        }
    }

    // Does what a command asks for, where it is allowed and adds rights or retires.
    fn take_command(
        &mut self,
        edges: &[Edge],
        worker: u64,
        asked: &Command,
    ) -> Result<bool, AllocError>
        ensures { IfOk result (λ taken. IsTrue taken → (g : ProtectionGraph) → Stands edges.now self.old g →
            Stands edges.now self.new (step g worker (deed.Plain asked.now))) }
    {
        match asked {
            Command::Take {
                rights,
                via,
                target,
            } => {
                let transfer = Transfer {
                    worker,
                    via: *via,
                    target: *target,
                    rights: *rights,
                    by: Right::T,
                    giver: *via,
                    taker: worker,
                };
                self.hand_on(edges, transfer)
            }
            Command::Grant {
                rights,
                via,
                target,
            } => {
                let transfer = Transfer {
                    worker,
                    via: *via,
                    target: *target,
                    rights: *rights,
                    by: Right::G,
                    giver: worker,
                    taker: *via,
                };
                self.hand_on(edges, transfer)
            }
            Command::Retire => {
                leave_out(&mut self.subjects, worker);
                Ok(true)
            }
            _ => Ok(false),
        }
    }

    // Hands on rights over a target to another vertex, where the worker and a giver have the rights for that.
    fn hand_on(&mut self, edges: &[Edge], transfer: Transfer) -> Result<bool, AllocError>
        ensures { IfOk result (λ taken. IsTrue taken → (g : ProtectionGraph) → Stands edges.now self.old g →
            IsHandedOn edges.now transfer g self.new) }
    {
        let Transfer {
            worker,
            via,
            target,
            rights,
            by,
            giver,
            taker,
        } = transfer;
        let three = all_differ(worker, via, target);
        let may = self.has_all(edges, worker, via, Rights::of(by));
        let has = self.has_all(edges, giver, target, rights.rights());
        if all_hold(three, may, has) {
            self.add(taker, target, rights)?;
            return Ok(true);
        }
        Ok(false)
    }

    // Makes a vertex over which the worker has these rights, if there is a name left. A subject is made only if fewer
    // than 64 are active.
    fn make(&mut self, worker: u64, making: Making, label: Label) -> Result<bool, AllocError>
        ensures { IfOk result (λ made. IsTrue made → StandsAfterMaking self.old self.new worker making label) }
    {
        let name = self.made;
        if name >= self.limit || making.is_one_too_many(self.subjects.len() as u64) {
            return Ok(false);
        }
        self.made = name + 1;
        self.rows.add_vertex();
        self.add(worker, name, label)?;
        match making {
            Making::Object => Ok(true),
            Making::Subject => {
                self.subjects.push(name)?;
                Ok(true)
            }
        }
    }

    /// Leaves the edges from each vertex as they were at first.
    pub(crate) fn forget_added(&mut self) {
        self.rows.forget(self.added.as_slice());
    }

    // Adds an edge.
    fn add(&mut self, from: u64, to: u64, label: Label) -> Result<(), AllocError>
        ensures added { OnOk result (self.new.added.items ≡ self.old.added.items ++ record { from = from; to = to; label = label } ∷ []) }
        ensures subjects { self.new.subjects.items ≡ self.old.subjects.items }
        ensures made { self.new.made ≡ self.old.made }
        ensures limit { self.new.limit ≡ self.old.limit }
    {
        self.rows.add(from, self.added.len());
        self.added.push(Edge { from, to, label })?;
        self.rows.grown
    }
}
