//! A payload of a host's own, which lends what no command can read.
use std::alloc::{AllocError, Global};
use tg_model::Law;
use tg_payload::{CellPayload, Draft, Payload};

/// A cell with a tag beside it, which no command can read.
#[derive(Drop)]
pub(crate) struct Tagged {
    pub(crate) cell: CellPayload,
    pub(crate) tag: u64,
}

impl Payload for Tagged {
    ghost value = { λ p. ⟦<CellPayload as Payload>⟧.value p.cell };

    fn law(&self) -> Law {
        self.cell.law()
    }

    fn len(&self) -> usize {
        self.cell.len()
    }

    fn at(&self, i: usize) -> u64 {
        self.cell.at(i)
    }

    fn write(&mut self, number: u64) -> Result<(), AllocError> {
        self.cell.write(number)
    }
}

/// A draft of a cell with 0, with this tag.
pub(crate) fn draft(alloc: Global, tag: u64) -> Option<Draft<Tagged>> {
    let cell = CellPayload::new(0);
    Draft::new(alloc, Tagged { cell, tag }).ok()
}

/// Drafts with the tags from this one on.
pub(crate) fn drafts(alloc: Global, first: u64, count: u64) -> Option<Vec<Draft<Tagged>>> {
    let mut drafts = Vec::new(alloc);
    for number in 0..count {
        drafts.push(draft(alloc, first.wrapping_add(number))?).ok()?;
    }
    Some(drafts)
}
