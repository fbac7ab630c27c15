//! What can't be reached is forgotten.
ghost use Rattle.std.specs.Prelude.{◌≡◌, ◌↔◌, ℕ, nat_eq, map, IsTrue, IfOk, OnOk, OnErr};
ghost use Rattle.indexmap.specs.IndexSet.{contains, insert_all};

use crate::live::LiveGraph;
use indexmap::IndexSet;
use std::alloc::AllocError;
use tg_rights::Label;

impl LiveGraph {
    ghost use Rattle.tg_model.specs.Graph.{IsReachable};
    ghost use Rattle.tg_journal.specs.Live.{IsSweptGraph, graph_kept};

    /// Forgets all vertices that no subject reaches. Fails only when out of memory, and the
    /// graph is then as it was.
    pub(crate) fn sweep(&mut self) -> Result<(), AllocError>
        ensures swept { OnOk result (IsSweptGraph (graph_kept self.old) (graph_kept self.new)) }
        ensures refused { OnErr result (self.new ≡ self.old) }
    {
        let names = self.reached()?;
        self.vertices.keep(&names);
        self.has_lost = false;
        Ok(())
    }

    /// The vertices that a subject reaches. Fails only when out of memory.
    pub(crate) fn reached(&self) -> Result<IndexSet<u64>, AllocError>
        ensures { IfOk result (λ names. (y : ℕ) → IsTrue (contains nat_eq names y) ↔ IsReachable (graph_kept self.now) y) }
    {
        let mut names = IndexSet::new(self.alloc);
        add_names(&mut names, &self.subjects)?;
        let mut next = 0;
        while next < names.len() {
            let row = self.vertices.row(self.alloc, names.as_slice()[next])?;
            add_targets(&mut names, row.as_slice())?;
            next += 1;
        }
        Ok(names)
    }
}

// Adds those of these names that aren't there yet after the others.
fn add_names(names: &mut IndexSet<u64>, more: &[u64]) -> Result<(), AllocError>
    ensures { OnOk result (names.new.keys ≡ insert_all nat_eq names.old.keys more.now) }
{
    for name in more {
        names.insert(*name)?;
    }
    Ok(())
}

// Adds those targets of edges that aren't there yet after the others.
fn add_targets(names: &mut IndexSet<u64>, row: &[(u64, Label)]) -> Result<(), AllocError>
    ensures { OnOk result (names.new.keys ≡ insert_all nat_eq names.old.keys (map (λ e. e.0) row.now)) }
{
    for edge in row {
        names.insert(edge.0)?;
    }
    Ok(())
}
