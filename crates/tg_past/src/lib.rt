//! The picture of the graph after a history.
//!
//! [`picture_after`] takes the picture of a graph and the entries that go on from it. It returns the picture of the
//! graph after the last entry, which may then be asked about or drawn. Unlike an auditor's graph, this picture also
//! has the edges of vertices that no active subject reaches.
//!
//! The picture has no row for each vertex. So its memory grows with the edges and the entries alone, even if the names
//! of vertices are large. The entries of a legal history say themselves what was served. `change` reads from an entry
//! what it changes of the labels. `edges` reads the entries backwards, and so knows of each right which later entries
//! take it away. `lost` has these rights. `actors` reads the entries forwards, for the active subjects and the number
//! of vertices made. The definitions of `specs/Inner` are cited by private calls alone.
#![tactic(auto)]

ghost use Rattle.std.specs.Prelude.{◌≡◌, IfOk};
ghost use Rattle.tg_model.specs.Graph.{ProtectionGraph, IsSound};
ghost use Rattle.tg_model.specs.Picture.{IsPictureOf};
ghost use Rattle.tg_journal.specs.History.{IsLegal, graph_after};

mod actors;
mod change;
mod edges;
mod lost;

use actors::Actors;
use edges::LastEdges;
use std::alloc::{AllocError, Global};
use tg_journal::Entry;
use tg_model::Picture;

/// The picture after entries, which go on from the graph of the first picture. It is that of the graph after the last
/// entry, if the entries are a legal history of that graph. Fails only when out of memory.
pub fn picture_after(
    alloc: Global,
    first: &Picture,
    entries: &[Entry],
) -> Result<Picture, AllocError>
    ensures { IfOk result (λ picture. (g : ProtectionGraph) → IsSound g → IsPictureOf first.now g → IsLegal g entries.now →
        IsPictureOf picture (graph_after g entries.now)) }
{
    let edges = LastEdges::after(alloc, first.edges(), entries)?;
    let Actors { subjects, made } = Actors::after(alloc, first, entries)?;
    Ok(Picture::new(subjects, edges, made, first.limit()))
}
