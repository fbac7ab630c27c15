//! The boxes of a run, in which its vertices store their numbers.
ghost use Rattle.std.specs.Prelude.{◌≡◌, IfOk, OnOk, map, replicate};
ghost use Rattle.tg_text.specs.declared.stock.StockItem.TheVariants.{Cell};
ghost use Rattle.tgstore.specs.Boxes.{value_of_item};
ghost use Rattle.tgstore.specs.Serving.{ServesFrom};
ghost use Rattle.tgstore.specs.Starts.{MayServe};
ghost use Rattle.tgstore.specs.Strict.{WatchesFrom};

use crate::host::RunHost;
use crate::serving::{RunParts, serve};
use crate::start::Start;
use crate::stop::Stop;
use std::alloc::{AllocError, Global};
use std::sync::Wait;
use std::thread::Threads;
use tg_payload::{Draft, LawPayload, Payload};
use tg_script::{Collector, Sink, Source, StockItem, Watch};

/// Runs the source's script from the start, with new boxes. Each worker has a cell with 0, and the stock has the boxes
/// that it names. If memory runs out before the run, nothing is read or written. The watch sees the answer to each
/// line, except in a race.
pub(crate) fn serve_with_boxes<
    R: Threads + Wait + Sync,
    C: Collector,
    S: Source,
    K: Sink,
    W: Watch,
>(
    host: &RunHost<R, C>,
    source: &mut S,
    sink: &mut K,
    watch: &mut W,
    start: &Start,
) -> Result<(), Stop>
    requires servable { MayServe C.Ready start.now }
    ensures served { ServesFrom start.now (S.left source.old) (S.left source.new) (K.taken sink.old) (K.taken sink.new) result }
    ensures seen { OnOk result (WatchesFrom start.now (S.left source.old) (S.left source.new) (K.taken sink.old) (K.taken sink.new) (W.refused watch.old) (W.refused watch.new)) }
{
    let workers = new_cells(host.alloc, start.settings.workers)?;
    let stock = new_drafts(host.alloc, &start.stock)?;
    let parts = RunParts {
        start,
        workers,
        stock,
    };
    serve(host, source, sink, watch, parts)
}

/// So many cells with 0. Fails only when out of memory.
pub(crate) fn new_cells(alloc: Global, count: u64) -> Result<Vec<LawPayload>, AllocError>
    ensures { IfOk result (λ cells. map (⟦<LawPayload as Payload>⟧.value) cells.items ≡ replicate count (value_of_item Cell)) }
{
    let mut cells = Vec::new(alloc);
    for _ in 0..count {
        cells.push(new_box(alloc, StockItem::Cell))?;
    }
    Ok(cells)
}

/// A draft of a new box for each item. Fails only when out of memory.
pub(crate) fn new_drafts(
    alloc: Global,
    items: &[StockItem],
) -> Result<Vec<Draft<LawPayload>>, AllocError>
    ensures { IfOk result (λ drafts. drafts.items ≡ map value_of_item items.now) }
{
    let mut drafts = Vec::with_capacity(alloc, items.len())?;
    for item in items {
        let Ok(draft) = Draft::new(alloc, new_box(alloc, *item)) else {
            return Err(AllocError);
        };
        drafts.push(draft)?;
    }
    Ok(drafts)
}

// A new box of this kind. Takes no memory.
fn new_box(alloc: Global, item: StockItem) -> LawPayload
    ensures { ⟦<LawPayload as Payload>⟧.value result ≡ value_of_item item }
{
    match item {
        StockItem::Cell => LawPayload::cell(0),
        StockItem::Sum => LawPayload::sum(0),
        StockItem::Max => LawPayload::max(0),
        StockItem::Log => LawPayload::log(alloc, 4),
    }
}
