//! The edges that entries leave. The entries are read backwards, so that it is known of each right that is added which
//! entries take it away later.
ghost use Rattle.std.specs.Prelude.{◌≡◌, ◌∷◌, [], ℕ, List, IfOk, OnOk};
ghost use Rattle.tg_rights.specs.RightSet.{RightSet, union};
ghost use Rattle.tg_model.specs.Graph.{ProtectionGraph, with_rights, without_rights};
ghost use Rattle.tg_model.specs.Opened.{label_in};
ghost use Rattle.tg_journal.specs.declared.entry.Entry.{Entry as TheEntry};
ghost use Rattle.tg_journal.specs.History.{IsLegal, graph_after};
ghost use Rattle.tg_past.specs.Inner.{Finishes, changed, left_after};

use crate::change::{Change, change_of};
use crate::lost::LostRights;
use std::alloc::{AllocError, Global};
use tg_journal::Entry;
use tg_model::Edge;
use tg_rights::Label;

/// The edges of the last graph, as far as entries add them that were read.
#[derive(Drop)]
pub(crate) struct LastEdges {
    edges: Vec<Edge>,
    // What these entries take away.
    lost: LostRights,
}

impl LastEdges {
    /// The edges after entries, which go on from a graph with the first edges. Two edges may have the same ends. Fails
    /// only when out of memory.
    pub(crate) fn after(
        alloc: Global,
        first: &[Edge],
        entries: &[Entry],
    ) -> Result<Vec<Edge>, AllocError>
        ensures { IfOk result (λ edges. (g : ProtectionGraph) → ((a b : ℕ) → g.label a b ≡ label_in first.now a b) → IsLegal g entries.now →
            (a b : ℕ) → (graph_after g entries.now).label a b ≡ label_in edges.items a b) }
    {
        let mut last = LastEdges::new(alloc);
        last.read(entries)?;
        last.begin(first)?;
        Ok(last.edges)
    }

    // No entry was read.
    fn new(alloc: Global) -> LastEdges
        ensures { Finishes result [] }
    {
        LastEdges {
            edges: Vec::new(alloc),
            lost: LostRights::new(alloc),
        }
    }

    // Reads all entries, where none was read before.
    fn read(&mut self, entries: &[Entry]) -> Result<(), AllocError>
        requires { Finishes self.old [] }
        ensures { OnOk result (Finishes self.new entries.now) }
    {
        let mut left = entries.len();
        'backwards: while left > 0 {
            left -= 1;
            self.precede(&entries[left])?;
        }
        Ok(())
    }

    // Reads the entry before those that were read.
    fn precede(&mut self, entry: &Entry) -> Result<(), AllocError>
        ensures { OnOk result ((rest : List TheEntry) → Finishes self.old rest → Finishes self.new (entry.now ∷ rest)) }
    {
        match change_of(entry) {
            Change::Adds(edge) => self.add(edge),
            Change::Loses(edge) => self.lose(edge),
            Change::Nothing => Ok(()),
        }
    }

    // Adds what is left at last of the first edges.
    fn begin(&mut self, first: &[Edge]) -> Result<(), AllocError>
        ensures { OnOk result ((label : ℕ → ℕ → RightSet) (a b : ℕ) →
            left_after self.new label a b ≡ left_after self.old (λ x y. union (label x y) (label_in first.now x y)) a b) }
    {
        for edge in first {
            self.add(*edge)?;
        }
        Ok(())
    }

    // Adds what is left at last of an edge.
    fn add(&mut self, edge: Edge) -> Result<(), AllocError>
        ensures { OnOk result ((label : ℕ → ℕ → RightSet) (a b : ℕ) →
            left_after self.new label a b ≡ left_after self.old (with_rights label edge.from edge.to edge.label) a b) }
    {
        let left = edge
            .label
            .rights()
            .minus(self.lost.over(edge.from, edge.to));
        match Label::new(left) {
            Some(label) => {
                self.edges.push(Edge { label, ..edge })?;
                Ok(())
            }
            None => Ok(()),
        }
    }

    // Takes away what was added before.
    fn lose(&mut self, edge: Edge) -> Result<(), AllocError>
        ensures { OnOk result ((label : ℕ → ℕ → RightSet) (a b : ℕ) →
            left_after self.new label a b ≡ left_after self.old (without_rights label edge.from edge.to edge.label) a b) }
    {
        self.lost.add(edge.from, edge.to, edge.label)
    }
}
