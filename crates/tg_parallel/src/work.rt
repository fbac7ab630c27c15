//! The work of a helper. It claims chunks of roots until there are none left, and copies what they lead to.
ghost use Rattle.std.specs.Prelude.{◌≡◌, ℕ, ◌*◌, ◌<◌, List, OnOk, length};
ghost use Rattle.tg_parallel.specs.declared.work.TheConstants.{CHUNK};
ghost use Rattle.tg_parallel.specs.Jobs.{HasCopiedAt, HasDone, HasDoneAll, HasEarned, MayBeginAt, SitsAt};
ghost use Rattle.tg_parallel.specs.Parts.{roots_of_chunk};
ghost use Rattle.tg_parallel.specs.Seats.{HasDrawn};

use crate::gate::Gate;
use crate::job::Job;
use crate::seat::Seat;
use std::alloc::Global;
use tg_block::Block;
use tg_evac::{Copies, Walk};
use tg_space::{RoomFault, Root};

// How many roots a chunk has. The last chunk may have fewer.
const CHUNK: u64 = 8;

/// Claims chunks of roots until there are none left, and copies all that they lead to and that no other helper has won.
/// The gate is passed before each claim of a chunk. Copies go to the spare blocks first.
///
/// It is refused as a claim of a cell is, or with `OutOfMemory` where memory for a copy was refused.
#[inline(always)]
pub fn work<G: Gate>(
    alloc: Global,
    job: &Job<'_, G>,
    seat: &mut Seat,
    number: u32,
    spare: Vec<Block>,
) -> Result<Copies, RoomFault>
    requires { MayBeginAt job.now seat.now }
    ensures { HasDoneAll job.now seat.entry.now seat.exit.now result }
{
    let mut copies = Copies::new(alloc, spare)?;
    let chunks = (job.task.roots.len() as u64).div_ceil(CHUNK);
    job.task.gate.pass(number);
    let mut chunk = seat.claim_chunk();
    while chunk < chunks {
        copy_chunk(job, seat, chunk, &mut copies)?;
        job.task.gate.pass(number);
        chunk = seat.claim_chunk();
    }
    Ok(copies)
}

// Copies what the roots of a chunk lead to, which was just claimed.
#[inline(always)]
fn copy_chunk<G: Gate>(
    job: &Job<'_, G>,
    seat: &mut Seat,
    chunk: u64,
    copies: &mut Copies,
) -> Result<(), RoomFault>
    requires seat { SitsAt job.now seat.now }
    requires inside { CHUNK * chunk < length job.now.task.roots.now }
    requires earned { HasEarned job.now seat.now }
    requires drawn { (before : List ℕ) × HasDrawn before chunk seat.now × HasCopiedAt job.now before seat.now copies.now }
    ensures worked { HasDone job.now seat.entry.now seat.exit.now result }
    ensures chunks { seat.exit.now.done.chunks ≡ seat.entry.now.done.chunks }
    ensures copied { OnOk result (HasCopiedAt job.now seat.exit.now.done.chunks seat.exit.now copies.exit.now) }
{
    let roots = chunk_of(job.task.roots, chunk);
    let walk = Walk {
        spaces: job.task.spaces,
        kind: job.task.kind,
        reads: job.task.reads,
    };
    walk.along(seat, roots, copies)
}

// The roots of a chunk: eights of them are counted from the end. The first roots reach more of what the others reach,
// because a subject's row leads to the vertices that it made. So one helper would have most of the work if the first
// roots came first.
fn chunk_of(roots: &[Root], chunk: u64) -> &[Root]
    requires { CHUNK * chunk < length roots.now }
    ensures { result.now ≡ roots_of_chunk roots.now chunk }
{
    let last = roots.len() - (CHUNK * chunk) as usize;
    let first = last.saturating_sub(CHUNK as usize);
    &roots[first..last]
}
