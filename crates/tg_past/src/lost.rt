//! Rights that are taken away.
ghost use Rattle.std.specs.Prelude.{◌≡◌, ◌==◌, ◌&&◌, ℕ, OnOk};
ghost use Rattle.tg_rights.specs.RightSet.{no_rights};
ghost use Rattle.tg_model.specs.Graph.{with_rights};
ghost use Rattle.tg_past.specs.Inner.{lost_over};

use std::alloc::{AllocError, Global};
use std::collections::BTreeMap;
use tg_model::Row;
use tg_rights::{Label, Rights};

/// The rights that some entries take away, for each pair of vertices.
#[derive(Drop)]
pub(crate) struct LostRights {
    alloc: Global,
    rows: BTreeMap<u64, Row>,
}

impl LostRights {
    /// No rights.
    pub(crate) fn new(alloc: Global) -> LostRights
        ensures { (a b : ℕ) → lost_over result a b ≡ no_rights }
    {
        LostRights {
            alloc,
            rows: BTreeMap::new(alloc),
        }
    }

    /// The rights over one vertex that are taken from another.
    pub(crate) fn over(&self, from: u64, to: u64) -> Rights
        ensures { result ≡ lost_over self.now from to }
    {
        match self.rows.get(&from) {
            Some(row) => row.rights_over(to),
            None => Rights::empty(),
        }
    }

    /// Adds rights over one vertex that are taken from another. Fails only when out of memory, and what was added
    /// before may be lost then.
    pub(crate) fn add(&mut self, from: u64, to: u64, label: Label) -> Result<(), AllocError>
        ensures { OnOk result ((a b : ℕ) → lost_over self.new a b ≡ with_rights (lost_over self.old) from to label a b) }
    {
        let mut row = self.rows.remove(&from).unwrap_or(Row::new(self.alloc));
        row.add(to, label)?;
        self.rows.insert(from, row)?;
        Ok(())
    }
}
