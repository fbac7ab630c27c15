//! Scripts in memory, with replies of any length, and a race whose workers have threads of their own.
ghost use Rattle.tg_script.specs.Inner.Counting.{MayCountInMemory};

use crate::meet::{MANY_TURNS, Meet};
use crate::opened::cells;
use std::alloc::{AllocError, Global};
use std::marker::Brand;
use std::sync::Wait;
use std::sync::ledger::{Blank, Ledger};
use std::test::Fail;
use std::thread::Threads;
use tg_script::{
    Bytes, Count, Helpers, Limits, OneThread, RunSetup, ScriptFault, Settings, Written,
    run_in_memory,
};
use tg_threads::{RaceFault, RaceHost, Replies, Turnstile, run_race};

// The settings of a run of two workers, who make no vertex.
fn settings() -> Option<Settings> {
    let limits = Limits::new(2, 2).ok()?;
    Some(Settings {
        workers: 2,
        helpers: Helpers::one(),
        max_vertices: 2,
        limits,
    })
}

// As many lines as have more than 65,536 bytes of replies.
fn many_lines(alloc: Global) -> Result<Vec<u8>, AllocError> {
    let mut lines = Vec::new(alloc);
    for _ in 0..4_000 {
        lines.extend_from_slice(b"0 read 9\n")?;
    }
    Ok(lines)
}

// How many bytes a run of the script writes, and how it ends.
fn length_written(alloc: Global, script: &[u8]) -> Option<(usize, Result<(), ScriptFault>)> {
    let settings = settings()?;
    let cells = cells(alloc, 2)?;
    if settings.workers != 2 || cells.len() != 2 {
        return None;
    }
    let setup = RunSetup {
        settings,
        workers: cells,
        stock: Vec::new(alloc),
    };
    let ran = run_in_memory(alloc, &OneThread, script, setup);
    Some((ran.written.len(), ran.outcome))
}

// What is written to memory may be long.
#[test]
fn long_replies(rt: HostRuntime) -> Result<(), Fail> {
    let lines = many_lines(rt.alloc())?;
    assert!(rt; length_written(rt.alloc(), &lines) == Some((76_000, Ok(()))));
    Ok(())
}

// Runs the script as a race of the two, and returns how it ends. The source is counted by ledger A, and the sink by
// ledger F.
fn race_counted<A: Ledger, F: Ledger, G: Turnstile + Sync, R: Threads + Wait + Sync>(
    host: &RaceHost<G, R>,
    script: &[u8],
    asked: Blank,
    failures: Blank,
) -> Option<Result<(), RaceFault>>
    requires countable { MayCountInMemory A.name A.parts F.name F.parts asked failures }
{
    let RaceHost {
        rt,
        alloc,
        turnstile,
    } = *host;
    let settings = settings()?;
    let cells = cells(alloc, 2)?;
    if settings.workers != 2 || cells.len() != 2 {
        return None;
    }
    let mut source = Bytes::new(script, Count::<A>::new(asked));
    let mut sink = Written::new(alloc, Count::<F>::new(failures));
    let stock = Vec::new(alloc);
    Some(run_race::<_, Replies, _, _, G, R>(
        rt,
        alloc,
        &mut source,
        &mut sink,
        turnstile,
        settings,
        cells,
        stock,
    ))
}

// Runs the script as a race of the two, with ledgers of its own, and returns how it ends.
fn race<G: Turnstile + Sync, R: Threads + Wait + Sync>(
    rt: &R,
    alloc: Global,
    turnstile: &G,
    script: &[u8],
) -> Option<Result<(), RaceFault>> {
    let (asked, failures) = (Blank::new(1), Blank::new(1));
    let host = RaceHost {
        rt,
        alloc,
        turnstile,
    };
    race_counted::<Brand, Brand, G, R>(&host, script, asked, failures)
}

// How a race of the script ends whose workers meet at a turnstile, and whether one missed the other within so many
// turns.
fn missed_within<R: Threads + Wait + Sync>(
    rt: &R,
    alloc: Global,
    script: &[u8],
    turns: u64,
) -> Option<(Result<(), RaceFault>, bool)> {
    let turnstile = Meet::of(alloc, 2, turns).ok()?;
    let ended = race(rt, alloc, &turnstile, script)?;
    Some((ended, turnstile.is_missed()))
}

// Two workers meet at a turnstile, and lines of one thread can't.
#[test]
fn workers_at_one_gate(rt: HostRuntime) {
    let two = missed_within(&rt, rt.alloc(), b"0 list\n1 list\n", MANY_TURNS);
    let one = missed_within(&rt, rt.alloc(), b"0 list\n0 list\n", 1000);
    assert!(rt; [two, one] == [Some((Ok(()), false)), Some((Ok(()), true))]);
}
