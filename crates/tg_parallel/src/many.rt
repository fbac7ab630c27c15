//! Collections by a helper at a table, and by several on threads.
ghost use Rattle.std.specs.Prelude.{◌≡◌, ◌≢◌, ◌+◌, ◌-◌, ◌≤◌, All, Err, IfErr, IfOk, OnOk, length};
ghost use Rattle.tg_space.specs.Soundness.{AreSound};
ghost use Rattle.tg_space.specs.SpaceTable.{kept_blocks};
ghost use Rattle.tg_race.specs.declared.record.Counts.{Counts};
ghost use Rattle.tg_race.specs.declared.record.Record.{Record};
ghost use Rattle.tg_race.specs.Race.{empty};
ghost use Rattle.tg_evac.specs.Collects.{CollectsRoots};
ghost use Rattle.tg_parallel.specs.declared.many.TheConstants.{MOST_HELPERS};
ghost use Rattle.tg_parallel.specs.Faults.{IsNotStarted};
ghost use Rattle.tg_parallel.specs.Inner.Tasks.{MayCollectBy, MayFinishAt, MayStartAll, IsNewSeat};
ghost use Rattle.tg_parallel.specs.Helping.{AllAreHelpedTogether, AllHelped, IsFaultOfLeast, IsHelped, IsNew, parts_helped};
ghost use Rattle.tg_parallel.specs.Jobs.{AllDone, IsCollected, IsDone, IsOpen, MayCollect, MayHelp};
ghost use Rattle.tg_parallel.specs.Merged.{IsMergedOf};
ghost use Rattle.tg_parallel.specs.Parts.{IsOpenedFor};
ghost use Rattle.tg_parallel.specs.Shares.{IsMostFilled, MayFill};
ghost use Rattle.tg_parallel.specs.Whole.{AreNoted, IsWholePart, MayFinish};

use crate::fault::HelpersFault;
use crate::gate::{Gate, NoGate};
use crate::job::{Job, Newcomer, Task};
use crate::merge::{joined, merged};
use crate::part::{Helped, Part};
use std::alloc::{AllocError, Global};
use std::sync::Wait;
use std::thread;
use std::thread::{Promise, PromisedHandle, Scope, Threads, join_promised};
use tg_block::Block;
use tg_evac::{Copied, Made, Plan};
use tg_race::{Helper, Opened, RaceTable};
use tg_space::{Forwarding, Kind, Moves, Numbering, RoomFault, Root, Spaces, Spare};
use tg_word::CELLS;

/// The most helpers that a collection may have.
pub const MOST_HELPERS: u32 = 8;

/// Copies what the roots reach into new blocks, by one helper at a table of its own, on the calling thread.
///
/// The result is a collection as that of `tg_evac::collect_one`, with the same refusals. Each space may have one block
/// more than its copies need. The spare blocks are filled first, and those that aren't needed are handed over with the
/// others. The table is laid out in the spare room first, which then has the list of won cells.
pub fn collect_seated(
    alloc: Global,
    spaces: &Spaces,
    roots: &[Root],
    kind: Kind,
    spare: Spare,
) -> Result<Copied, RoomFault>
    requires { AreSound spaces.now.spaces roots.now }
    ensures { CollectsRoots RoomFault.HeapFull kind spaces.now roots.now 1 1 result }
{
    collect_alone(alloc, &Task::new(spaces, roots, kind, &NoGate), spare)
}

// A collection by one helper at a table of its own, on the calling thread, who passes the gate.
#[tactic(auto, using(tg_evac::proofs::Behind::kept_within))]
fn collect_alone<G: Gate>(
    alloc: Global,
    task: &Task<'_, G>,
    spare: Spare,
) -> Result<Copied, RoomFault>
    requires { MayCollect task.now }
    ensures { IsCollected RoomFault.HeapFull task.now 1 result }
{
    let cells = task.spaces.cells();
    let plan = Plan::of(task.kind, task.spaces);
    let Spare { blocks, words } = spare;
    let Opened {
        table,
        helper,
        room,
    } = RaceTable::open(alloc, cells, task.roots.len() as u64, plan.kept, 1, words)?;
    let newcomer = Newcomer {
        helper,
        number: 0,
        spare: Spare {
            blocks,
            words: room,
        },
    };
    let job = Job {
        table: &table,
        task: *task,
    };
    let helped = job.help(alloc, newcomer);
    finish(alloc, table, task, plan, helped)
}

/// Copies what the roots reach into new blocks, by as many helpers as the caller asks for. One helper is on the calling
/// thread, and each other helper on a thread of its own. All others are started before the one here begins. If no cell
/// may move, the calling thread does all alone.
///
/// The result is a collection as that of `tg_evac::collect_one`. Each space may have as many blocks more than its
/// copies need as there are helpers.
///
/// `HeapFull` is returned only if the cells that the roots reach may not fit into the blocks that a space may have. One
/// block may be open for each helper. Cells that the roots don't reach take no room. `NoThread` is returned if a thread
/// couldn't be started, which needs more than one helper. The threads that were started have ended by then. If several
/// helpers fail, the fault is that of the least number. The helper on the calling thread has number 0.
///
/// Each helper fills its share of the spare blocks first, but gets no more than it may fill. The helper on the calling
/// thread gets the rest too. The table is laid out in the spare room first, which then has the list of won cells of
/// that helper.
pub fn collect_many<R: Threads + Wait + Sync, G: Gate>(
    rt: &R,
    alloc: Global,
    spaces: &Spaces,
    roots: &[Root],
    kind: Kind,
    helpers: u32,
    gate: &G,
    spare: Spare,
) -> Result<Copied, HelpersFault>
    requires sound { AreSound spaces.now.spaces roots.now }
    requires some { 1 ≤ helpers }
    requires few { helpers ≤ MOST_HELPERS }
    ensures collects { CollectsRoots HelpersFault.HeapFull kind spaces.now roots.now helpers helpers result }
    ensures alone { helpers ≡ 1 → IfErr result (λ fault. fault ≢ HelpersFault.NoThread) }
{
    Task::new(spaces, roots, kind, gate).collect(rt, alloc, helpers, spare)
}

impl<'a, G: Gate> Task<'a, G> {
    // What `collect_many` says.
    #[tactic(auto, using(tg_evac::proofs::Behind::kept_within))]
    fn collect<R: Threads + Wait + Sync>(
        &self,
        rt: &R,
        alloc: Global,
        helpers: u32,
        spare: Spare,
    ) -> Result<Copied, HelpersFault>
        requires may { MayCollectBy helpers self.now }
        ensures collects { IsCollected HelpersFault.HeapFull self.now helpers result }
        ensures alone { helpers ≡ 1 → IfErr result (λ fault. fault ≢ HelpersFault.NoThread) }
    {
        let cells = self.spaces.cells();
        let plan = Plan::of(self.kind, self.spaces);
        if helpers == 1 || cells == CELLS * plan.kept {
            return Ok(collect_alone(alloc, self, spare)?);
        }
        let Spare { blocks, words } = spare;
        let Opened {
            table,
            helper,
            room,
        } = RaceTable::open(
            alloc,
            cells,
            self.roots.len() as u64,
            plan.kept,
            helpers,
            words,
        )?;
        let newcomer = Newcomer {
            helper,
            number: 0,
            spare: Spare {
                blocks,
                words: room,
            },
        };
        let job = Job {
            table: &table,
            task: *self,
        };
        let helped = work_all(rt, alloc, &job, helpers, newcomer)?;
        Ok(finish(alloc, table, self, plan, helped)?)
    }
}

// A helper on a thread promises what one does on the calling thread.
impl<'a, G> Promise<Helped> for Job<'a, G> {
    ghost use Rattle.tg_parallel.specs.Jobs.{IsDone};

    ghost kept_by = { λ job r. IsDone job 1 r };
}

// As many helpers as the newcomer represents: one here, and each other on a thread of its own. None works here before
// all others have started.
fn work_all<R: Threads + Wait + Sync, G: Gate>(
    rt: &R,
    alloc: Global,
    job: &Job<'_, G>,
    helpers: u32,
    newcomer: Newcomer,
) -> Result<Helped, HelpersFault>
    requires table { IsOpen job.now }
    requires all { IsNewSeat helpers job.now.table.now newcomer.helper }
    ensures helped { IfOk result (IsDone job.now helpers) }
    ensures refused { IfErr result (IsNotStarted (helpers - 1)) }
{
    let Newcomer {
        mut helper,
        number,
        spare,
    } = newcomer;
    let others = split_all(alloc, job.table, &mut helper, helpers)?;
    let first = Newcomer {
        helper,
        number,
        spare,
    };
    let (mine, theirs) = work_in_scope(rt, alloc, job, first, others)?;
    Ok(all_joined(job.table, mine, theirs))
}

// A helper here, and each other on a thread of its own.
//
// The job is taken apart for the closure and put together in it, and `start` does this too. A closure that is handed on
// keeps its `ensures` only if each reference is captured by itself.
fn work_in_scope<R: Threads + Wait, G: Gate>(
    rt: &R,
    alloc: Global,
    job: &Job<'_, G>,
    first: Newcomer,
    others: Vec<Helper>,
) -> Result<(Helped, Vec<Helped>), HelpersFault>
    requires first { MayHelp job.now job.now.task.kind first }
    requires others { All (IsNew job.now.table.now) others.items }
    ensures made { IfOk result (λ x. AllDone job.now (length others.items) x.0 x.1.items) }
    ensures refused { IfErr result (IsNotStarted (length others.items)) }
{
    let Job { table, task } = *job;
    let Task {
        spaces,
        roots,
        kind,
        reads,
        gate,
    } = task;
    let Newcomer {
        helper,
        number,
        mut spare,
    } = first;
    thread::scope(
        thread::scope_env(),
        rt,
        |scope| -> Result<(Helped, Vec<Helped>), HelpersFault>
            requires { IsOpenedFor kind spaces.now.spaces roots.now table.now.counts × IsNew table.now helper × All (IsNew table.now) others.items }
            ensures { IfOk result (λ x. AllHelped kind spaces.entry.now roots.entry.now table.entry.now (length others.items) x.0 x.1.items) × IfErr result (IsNotStarted (length others.items)) }
        {
            let task = Task {
                spaces,
                roots,
                kind,
                reads,
                gate,
            };
            let job = Job { table, task };
            let children = start_all(alloc, scope, &job, others, &mut spare)?;
            let first = Newcomer {
                helper,
                number,
                spare,
            };
            let mine = job.help(alloc, first);
            let theirs = join_promised(rt, children)?;
            Ok((mine, theirs))
        },
    )
}

// Starts a thread of the scope for each helper, with its share of the spare blocks. The others are left, and the room.
fn start_all<'s, E, G: Gate>(
    alloc: Global,
    scope: &Scope<'s, E>,
    job: &Job<'s, G>,
    others: Vec<Helper>,
    spare: &mut Spare,
) -> Result<Vec<PromisedHandle<Helped, Job<'s, G>>>, HelpersFault>
    requires { MayStartAll job.now others.items }
    ensures promises { IfOk result (λ children. All (λ child. child.promise ≡ job.now) children.items) }
    ensures many { IfOk result (λ children. length children.items ≡ length others.items) }
    ensures refused { IfErr result (IsNotStarted (length others.items)) }
{
    let mut children = Vec::with_capacity(alloc, others.len())?;
    let like = spare.blocks.len() / (others.len() + 1);
    let blocks = like.min(most_filled(job.task.spaces, job.task.kind));
    let mut number: u32 = 0;
    for other in others {
        number = number.wrapping_add(1);
        let share = Spare {
            blocks: take_last(&mut spare.blocks, blocks)?,
            words: Vec::new(alloc),
        };
        let newcomer = Newcomer {
            helper: other,
            number,
            spare: share,
        };
        let child = start(alloc, scope, job, newcomer)?;
        children.push(child)?;
    }
    Ok(children)
}

// How many blocks a helper may fill: what may move, and the open block of each space.
#[tactic(auto, using(tg_evac::proofs::Behind::kept_within))]
fn most_filled(spaces: &Spaces, kind: Kind) -> usize
    ensures { IsMostFilled kind spaces.now.spaces result }
{
    let cells = spaces.cells();
    let plan = Plan::of(kind, spaces);
    ((cells - CELLS * plan.kept) / CELLS) as usize + 2
}

// Starts a thread of the scope for a helper. It is handed no more blocks than it may fill.
fn start<'s, E, G: Gate>(
    alloc: Global,
    scope: &Scope<'s, E>,
    job: &Job<'s, G>,
    other: Newcomer,
) -> Result<PromisedHandle<Helped, Job<'s, G>>, HelpersFault>
    requires new { MayHelp job.now job.now.task.kind other }
    requires share { MayFill job.now.task.kind job.now.task.spaces.now.spaces (length other.spare.blocks.items) }
    ensures promise { IfOk result (λ child. child.promise ≡ job.now) }
    ensures refused { IfErr result (λ fault. fault ≡ HelpersFault.NoThread) }
{
    let Job { table, task } = *job;
    let Task {
        spaces,
        roots,
        kind,
        reads,
        gate,
    } = task;
    let Ok(child) = scope.spawn_with(
        *job,
        move || -> Helped
            requires { IsOpenedFor kind spaces.now.spaces roots.now table.now.counts × IsNew table.now other.helper }
            ensures { IsHelped kind spaces.entry.now roots.entry.now table.entry.now 1 result }
        {
            let task = Task {
                spaces,
                roots,
                kind,
                reads,
                gate,
            };
            Job { table, task }.help(alloc, other)
        },
    ) else {
        return Err(HelpersFault::NoThread);
    };
    Ok(child)
}

// Takes as many blocks from the end as there are, at most.
fn take_last(blocks: &mut Vec<Block>, most: usize) -> Result<Vec<Block>, AllocError>
    ensures { IfOk result (λ taken. length taken.items ≤ most) }
{
    blocks.split_off(blocks.len() - most.min(blocks.len()))
}

// Makes as many helpers of share 1 as `helper` can spare.
fn split_all(
    alloc: Global,
    table: &RaceTable,
    helper: &mut Helper,
    helpers: u32,
) -> Result<Vec<Helper>, AllocError>
    requires { IsNewSeat helpers table.now helper.old }
    ensures kept { OnOk result ((helper.new.table ≡ helper.old.table) × (helper.new.done ≡ empty 1)) }
    ensures made { IfOk result (λ others. All (IsNew table.now) others.items) }
    ensures many { IfOk result (λ others. length others.items + 1 ≡ helpers) }
{
    let mut others = Vec::with_capacity(alloc, helpers as usize)?;
    for _ in 1..helpers {
        let other = helper.split(table);
        others.push(other)?;
    }
    Ok(others)
}

// What all helpers have done, as if one had. If several helpers have a fault, the fault of the least number is
// reported. The room is that of the helper on the calling thread.
fn all_joined(table: &RaceTable, mine: Helped, theirs: Vec<Helped>) -> Helped
    requires own { mine.helper.table ≡ table.now.table }
    requires others { All (λ r. r.helper.table ≡ table.now.table) theirs.items }
    ensures own { IfErr mine.part (λ fault. result.part ≡ Err fault) }
    ensures least { IfErr result.part (IsFaultOfLeast (parts_helped mine theirs.items)) }
    ensures room { result.room ≡ mine.room }
    ensures helped { AllAreHelpedTogether table.now mine theirs.items result }
{
    let mut all = mine;
    for other in theirs {
        all = joined(table, all, other);
    }
    all
}

// The collection, from the table and what the helper that represents all has made.
fn finish<G: Gate>(
    alloc: Global,
    table: RaceTable,
    task: &Task<'_, G>,
    plan: Plan,
    helped: Helped,
) -> Result<Copied, RoomFault>
    requires { MayFinishAt task.now.spaces.now task.now.roots.now plan table helped }
    ensures { CollectsRoots RoomFault.HeapFull plan.kind task.now.spaces.now task.now.roots.now table.counts.helpers table.counts.helpers result }
{
    let Helped { helper, part, room } = helped;
    let forward = Forwarding::of_closed(CELLS * plan.kept, table.close(helper), room);
    match part {
        Ok(part) => Ok(put_together(alloc, forward, task, plan, part)?),
        Err(fault) => Err(fault),
    }
}

// What is handed over, of the closed words and of all blocks.
fn put_together<G: Gate>(
    alloc: Global,
    forward: Forwarding,
    task: &Task<'_, G>,
    plan: Plan,
    part: Part,
) -> Result<Copied, AllocError>
    requires plan { MayFinish task.now.spaces.now task.now.roots.now plan }
    requires made { (k : Counts) × (done : Record) × IsWholePart plan.kind task.now.spaces.now task.now.roots.now k forward.words done part.aged.items part.old.items }
    ensures words { IfOk result (λ copied. copied.forward.words ≡ forward.words) }
    ensures merged { IfOk result (λ copied. IsMergedOf plan.kind (kept_blocks plan.kind task.now.spaces.now.spaces) part copied.adoption) }
    ensures noted { IfOk result (λ copied. AreNoted plan.kind task.now.spaces.now.spaces task.now.roots.now forward.words copied.adoption.old copied.remembered.places) }
{
    let adoption = merged(alloc, plan.kind, part)?;
    let numbering = Numbering::of(task.spaces);
    let moves = Moves {
        numbering: &numbering,
        kind: plan.kind,
        forward: &forward,
    };
    let made = Made {
        spaces: task.spaces,
        moves,
    };
    let remembered = made.notes(alloc, task.roots, &adoption.old, plan.kept)?;
    Ok(Copied {
        forward,
        adoption,
        remembered,
    })
}
