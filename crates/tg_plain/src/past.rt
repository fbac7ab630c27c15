//! The graph that a history leaves.
ghost use Rattle.std.specs.Prelude.{IfOk, List, ℕ};
ghost use Rattle.tg_model.specs.Opened.{start_of};
ghost use Rattle.tg_entries.specs.Kept.{IsTextOf};
ghost use Rattle.tg_plain.specs.Inner.Past.{AfterLegal};
ghost use Rattle.tg_plain.specs.Past.{IsLastPicture};

use std::alloc::{AllocError, Global};
use tg_entries::{History, HistoryStart};
use tg_journal::Entry;
use tg_model::{Graph, Opening, Picture};
use tg_past::picture_after;

/// The picture of the graph after the last entry of a history whose text was read. It also shows the edges of vertices
/// that no active subject reaches, if the opening or the entries make them. Fails only when out of memory.
pub fn last_picture(alloc: Global, history: &History) -> Result<Picture, AllocError>
    ensures { IfOk result (λ picture. (bytes : List ℕ) → IsTextOf bytes history.now → IsLastPicture bytes picture) }
{
    let entries = history.entries.as_slice();
    match &history.start {
        HistoryStart::Opened(opening) => after_opening(alloc, opening, entries),
        HistoryStart::Shown(snapshot) => picture_after(alloc, snapshot.picture(), entries),
    }
}

// The picture after entries that follow an opening. Fails only when out of memory.
fn after_opening(alloc: Global, opening: &Opening, entries: &[Entry]) -> Result<Picture, AllocError>
    ensures { IfOk result (AfterLegal (start_of opening.now) entries.now) }
{
    let graph = Graph::open(alloc, opening)?;
    let first = graph.picture(alloc)?;
    picture_after(alloc, &first, entries)
}
