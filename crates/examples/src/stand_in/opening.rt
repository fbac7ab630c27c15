//! The subjects and edges with which the story begins.

use super::desk::{Desk, OWNER};
use super::fault::DeskFault;
use crate::opening::{cell, cells_of_three, limits, opening_of_three};
use std::alloc::Global;
use tg_model::{Edge, Opening};
use tg_payload::{CellPayload, Draft};
use tg_rights::Label;
use tg_store::{Limits, StoreFault};

// The workers are the owner, its client and a friend of the client's.

/// The name of the client.
pub const CLIENT: u64 = 1;

/// The name of the client's friend.
pub const FRIEND: u64 = 2;

// The number that the count stores at first.
const FIRST_COUNT: u64 = 40;

// The owner has these rights over the client, and the client over its friend.
fn edges(alloc: Global, rights: Label) -> Result<Vec<Edge>, StoreFault> {
    let mut edges = Vec::new(alloc);
    edges.push(Edge {
        from: OWNER,
        to: CLIENT,
        label: rights,
    })?;
    edges.push(Edge {
        from: CLIENT,
        to: FRIEND,
        label: rights,
    })?;
    Ok(edges)
}

/// The opening. It has three workers that store cells, and each has these rights over the next worker.
pub fn opening(alloc: Global, rights: Label) -> Result<Opening, StoreFault> {
    opening_of_three(alloc, edges(alloc, rights)?)
}

/// A desk with this opening, at which the owner has the rights `own` over the count and over the stand-in.
pub fn open_desk(alloc: Global, rights: Label, own: Label) -> Result<Desk<CellPayload>, DeskFault> {
    let furniture = to_open(alloc, rights)?;
    let Furniture {
        opening,
        limits,
        drafts,
        thing,
        stand_in,
    } = furniture;
    Desk::open(alloc, opening, limits, drafts, own, thing, stand_in)
}

// All that a desk is opened with.
struct Furniture {
    opening: Opening,
    limits: Limits,
    drafts: Vec<Draft<CellPayload>>,
    thing: Draft<CellPayload>,
    stand_in: Draft<CellPayload>,
}

fn to_open(alloc: Global, rights: Label) -> Result<Furniture, StoreFault> {
    Ok(Furniture {
        limits: limits()?,
        opening: opening(alloc, rights)?,
        drafts: cells_of_three(alloc)?,
        thing: cell(alloc, FIRST_COUNT)?,
        stand_in: cell(alloc, 0)?,
    })
}
