//! Opening a heap.
ghost use Rattle.std.specs.Prelude.{[], ◌≡◌, ◌≢◌, ◌↔◌, ◌<◌, ◌≤◌, ℕ, false, true, length, slice_index_or, slice_set, Err, IfErr, IfOk, IsErrAnd, OnOk};
ghost use Rattle.std.specs.List.{All, range_with_len};
ghost use Rattle.tg_rights.specs.RightSet.{is_none_held, no_rights, union};
ghost use Rattle.tg_model.specs.Graph.{with_rights};
ghost use Rattle.tg_model.specs.Opened.{JoinsWorkers, label_in, start_of};
ghost use Rattle.tg_word.specs.Word.{nursery_space};
ghost use Rattle.tg_word.specs.declared.Place.{Place};
ghost use Rattle.tg_word.specs.declared.TheConstants.{MAX_NURSERIES};
ghost use Rattle.tg_subjects.specs.Subjects.{names_of, nurseries_of, subject_places};
ghost use Rattle.tg_block.specs.declared.CellKind.TheVariants.{Object};
ghost use Rattle.tg_space.specs.SpaceList.{block_count, space_of};
ghost use Rattle.tg_space.specs.SpaceTable.{no_blocks, used_of};
ghost use Rattle.tg_space.specs.Soundness.{IsKindAt};
ghost use Rattle.tg_nursery.specs.Allocation.{HasRoomLeft};
ghost use Rattle.tg_graph.specs.Heap.{AreAtHome, content_of, subject_names};
ghost use Rattle.tg_rows.specs.Graph.{IsGraph};
ghost use Rattle.tg_rows.specs.Rows.{name_at};
ghost use Rattle.tg_rows.specs.Steps.{TakesOneCell};
ghost use Rattle.tg_graph.specs.Opened.{AreFewWorkers, AreWorkers, CanGetBlocks, HasBlocks, IsOpened, IsReadyFor, IsRoomFor, IsUnjoined, Relabels, labels_in, no_labels, with_row};
ghost use Rattle.tg_graph.specs.Standing.{IsContentOf};

use crate::heap::{Heap, HeapRefused};
use std::alloc::{AllocError, Global};
use tg_model::{Edge, Opening};
use tg_payload::{Draft, Payload, PayloadTable};
use tg_remember::Remembered;
use tg_rights::Rights;
use tg_rows::{Cells, Gift, LongRows, find_spot};
use tg_space::{Limits, RoomFault, Spaces};
use tg_subjects::{Subject, Subjects};
use tg_word::{MAX_NURSERIES, Place, nursery_space};

// What an opening fills, with room for all of it.
#[derive(Drop)]
struct Room<P: Payload> {
    cells: Cells<P>,
    subjects: Subjects,
    // The rights of one worker over each.
    row: Vec<Rights>,
}

impl<P: Payload> Heap<P> {
    /// The heap of the graph that an opening starts from. The drafts are those of the workers, by rising name, with the
    /// opening's values. The active subjects are the workers, and each holds the nursery whose number is its name. Its
    /// object lies there, and so do the chunks of its row. The heap takes a block for each worker and no more.
    ///
    /// It is refused where there may be fewer blocks than there are workers (`HeapFull`, exactly then), and where
    /// memory is (`OutOfMemory`). Then the drafts come back as they were. See 'Growth comes first' in
    /// docs/inside/ARCHITECTURE.md.
    pub fn open(
        alloc: Global,
        opening: &Opening,
        limits: Limits,
        drafts: Vec<Draft<P>>,
    ) -> Result<Heap<P>, HeapRefused<P>>
        requires { drafts.items ≡ opening.now.values }
        ensures stands { IfOk result (λ heap. IsContentOf (content_of heap) (start_of opening.now)) }
        ensures subjects { IfOk result (λ heap. subject_names heap ≡ range_with_len 0 opening.now.workers) }
        ensures numbers { IfOk result (λ heap. nurseries_of heap.subjects ≡ range_with_len 0 opening.now.workers) }
        ensures nurseries { IfOk result (λ heap. AreAtHome heap.subjects) }
        ensures limits { IfOk result (λ heap. heap.table.limits ≡ limits) }
        ensures blocks { IfOk result (λ heap. block_count heap.table.spaces ≡ opening.now.workers) }
        ensures handed_back { IfErr result (λ refused. refused.drafts.items ≡ drafts.items) }
        ensures full { IsErrAnd result (λ refused. refused.why ≡ RoomFault.HeapFull) ↔ (limits.max_blocks < opening.now.workers) }
    {
        let mut room = match with_room(alloc, opening.workers(), limits) {
            Ok(room) => room,
            Err(why) => return Err(HeapRefused { drafts, why }),
        };
        place_workers(&mut room.cells, &mut room.subjects, drafts);
        add_edges(
            &mut room.cells,
            room.subjects.as_slice(),
            &mut room.row,
            opening.edges(),
        );
        Ok(Heap {
            cells: room.cells,
            subjects: room.subjects,
            rows: LongRows::new(alloc),
        })
    }
}

// Room for the graph of so many workers: cells with no vertex, where the nursery of each has a block.
fn with_room<P: Payload>(alloc: Global, workers: u64, limits: Limits) -> Result<Room<P>, RoomFault>
    requires { AreFewWorkers workers }
    ensures ready { IfOk result (IsReadyFor workers limits) }
    ensures full { IsErrAnd result (λ why. why ≡ RoomFault.HeapFull) ↔ (limits.max_blocks < workers) }
{
    if limits.max_blocks() < workers {
        return Err(RoomFault::HeapFull);
    }
    let Ok(mut room) = empty_room(alloc, workers, limits) else {
        return Err(RoomFault::OutOfMemory);
    };
    add_blocks(&mut room.cells.spaces, workers)?;
    Ok(room)
}

// Room for so many payloads and rights and for all subjects that there may be, and spaces with no block.
fn empty_room<P: Payload>(
    alloc: Global,
    workers: u64,
    limits: Limits,
) -> Result<Room<P>, AllocError>
    requires { workers ≤ MAX_NURSERIES }
    ensures room { IfOk result (IsRoomFor workers) }
    ensures spaces { IfOk result (λ room. room.cells.spaces ≡ no_blocks MAX_NURSERIES limits) }
{
    let subjects = Subjects::new(alloc)?;
    let row = vec![in alloc; Rights::empty(); workers as usize]?;
    let spaces = Spaces::new(alloc, MAX_NURSERIES, limits)?;
    let mut payloads = PayloadTable::new(alloc);
    payloads.reserve(workers)?;
    let cells = Cells {
        alloc,
        spaces,
        payloads,
        remembered: Remembered::new(alloc),
    };
    Ok(Room {
        cells,
        subjects,
        row,
    })
}

// Gives the nursery of each worker its first block.
fn add_blocks(spaces: &mut Spaces, workers: u64) -> Result<(), RoomFault>
    requires { CanGetBlocks spaces.old workers }
    ensures blocks { OnOk result (HasBlocks spaces.new workers spaces.old.limits) }
    ensures full { result ≢ Err RoomFault.HeapFull }
{
    for worker in 0..workers {
        spaces.add_block(nursery_space(worker))?;
    }
    Ok(())
}

// Puts the object of each worker into the nursery with its number, and makes it a subject.
fn place_workers<P: Payload>(cells: &mut Cells<P>, subjects: &mut Subjects, drafts: Vec<Draft<P>>)
    requires blocks { HasBlocks cells.old.spaces (length drafts.items) cells.old.spaces.limits }
    requires few { length drafts.items ≤ MAX_NURSERIES }
    requires payloads { cells.old.payloads.entries ≡ [] }
    requires spare { length drafts.items ≤ cells.old.payloads.spare }
    requires subjects { subjects.old ≡ [] }
    ensures opened { IsOpened cells.new.spaces cells.new.payloads (subject_places subjects.new) (length drafts.items) cells.old.spaces.limits no_labels drafts.items }
    ensures names { names_of subjects.new ≡ range_with_len 0 (length drafts.items) }
    ensures numbers { nurseries_of subjects.new ≡ range_with_len 0 (length drafts.items) }
    ensures nurseries { AreAtHome subjects.new }
    ensures unused { (x : ℕ) → used_of cells.new.spaces (nursery_space x) ≤ 1 }
    ensures remembered { cells.new.remembered ≡ cells.old.remembered }
{
    for draft in drafts {
        let name = subjects.len() as u64;
        let place = cells.place_vertex(name, name, draft);
        subjects.add(name, place);
    }
}

// Adds these edges, worker by worker: two of one pair make one reference.
fn add_edges<P: Payload>(
    cells: &mut Cells<P>,
    subjects: &[Subject],
    row: &mut [Rights],
    edges: &[Edge],
)
    requires workers { AreWorkers cells.old subjects.now }
    requires row { length row.old ≡ length subjects.now }
    requires edges { All (JoinsWorkers (length subjects.now)) edges.now }
    requires labels { (x y : ℕ) → labels_in cells.old x y ≡ no_rights }
    requires unused { (x : ℕ) → used_of cells.old.spaces (nursery_space x) ≤ 1 }
    requires blocks { (x : ℕ) → x < length subjects.now → 1 ≤ length (space_of cells.old.spaces.spaces (nursery_space x)) }
    ensures { Relabels cells.old cells.new (label_in edges.now) }
{
    for from in 0..subjects.len() as u64 {
        read_row(edges, from, row);
        add_row(cells, from, subjects, row);
    }
}

// Reads the rights of one vertex over each off the edges.
fn read_row(edges: &[Edge], from: u64, row: &mut [Rights])
    requires { All (JoinsWorkers (length row.old)) edges.now }
    ensures { (y : ℕ) → slice_index_or row.new y no_rights ≡ label_in edges.now from y }
{
    row.fill(Rights::empty());
    for edge in edges {
        if edge.from == from {
            unite(row, edge.to, edge.label.rights());
        }
    }
}

// Adds rights over one vertex to a row.
fn unite(row: &mut [Rights], to: u64, rights: Rights)
    requires { to < length row.old }
    ensures { row.new ≡ slice_set row.old to (union (slice_index_or row.old to no_rights) rights) }
{
    let to = to as usize;
    row[to] = row[to].union(rights);
}

// Adds the edges of one worker, in whose nursery only its object is.
fn add_row<P: Payload>(cells: &mut Cells<P>, from: u64, subjects: &[Subject], row: &[Rights])
    requires worker { IsUnjoined cells.old subjects.now from }
    requires row { length row.now ≡ length subjects.now }
    requires no_loop { slice_index_or row.now from no_rights ≡ no_rights }
    ensures added { Relabels cells.old cells.new (with_row (labels_in cells.old) from row.now) }
    ensures others { (space : ℕ) → space ≢ nursery_space from → used_of cells.new.spaces space ≡ used_of cells.old.spaces space }
{
    for (to, rights) in row.iter().enumerate() {
        let holder = subjects[from as usize].place;
        add_some(cells, from, holder, subjects[to].place, *rights);
    }
}

// Gives one object rights over another, if there are any. There is room for them.
fn add_some<P: Payload>(cells: &mut Cells<P>, nursery: u64, from: Place, to: Place, rights: Rights)
    requires nursery { nursery_space nursery < length cells.old.spaces.spaces }
    requires graph { IsGraph cells.old.spaces.spaces cells.old.payloads }
    requires from { IsKindAt cells.old.spaces.spaces Object from }
    requires to { IsKindAt cells.old.spaces.spaces Object to }
    requires room { is_none_held rights ≡ false → HasRoomLeft cells.old.spaces (nursery_space nursery) 1 }
    requires old { length (space_of cells.old.spaces.spaces 0) ≡ 0 }
    ensures added { Relabels cells.old cells.new (with_rights (labels_in cells.old) (name_at cells.old.spaces.spaces from) (name_at cells.old.spaces.spaces to) rights) }
    ensures one_cell { TakesOneCell cells.old.spaces cells.new.spaces (nursery_space nursery) }
    ensures nothing { is_none_held rights ≡ true → cells.new.spaces ≡ cells.old.spaces }
{
    if rights.is_empty() {
        return;
    }
    let spot = find_spot(&cells.spaces, from, cells.name_of(to));
    cells
        .put_edge(nursery, from, spot, Gift { to, rights })
        .unwrap();
}
