//! Boxes of the four laws, through generic code.

use std::alloc::Global;
use tg_model::Law;
use tg_payload::{CellPayload, LogPayload, MaxPayload, Payload, PayloadBox, SumPayload};

// Writes 1, 2 and 3 to the payload. Its law, and the first number that it then stores.
fn after_three<P: Payload>(payload: &mut P) -> Option<(Law, u64)> {
    for number in 1..4 {
        payload.write(number).ok()?;
    }
    if payload.len() > 0 {
        Some((payload.law(), payload.at(0)))
    } else {
        None
    }
}

fn of_cell(alloc: Global) -> Option<(Law, u64)> {
    let mut cell: PayloadBox = Box::new(alloc, CellPayload::new(7)).ok()?;
    after_three(&mut cell)
}

fn of_sum(alloc: Global) -> Option<(Law, u64)> {
    let mut sum: PayloadBox = Box::new(alloc, SumPayload::new(u64::MAX)).ok()?;
    after_three(&mut sum)
}

fn of_max(alloc: Global) -> Option<(Law, u64)> {
    let mut max: PayloadBox = Box::new(alloc, MaxPayload::new(2)).ok()?;
    after_three(&mut max)
}

fn of_log(alloc: Global) -> Option<(Law, u64)> {
    let mut log: PayloadBox = Box::new(alloc, LogPayload::new(alloc, 2)).ok()?;
    after_three(&mut log)
}

#[test]
fn boxes_of_the_four_laws(rt: HostRuntime) {
    let alloc = rt.alloc();
    let seen = [of_cell(alloc), of_sum(alloc), of_max(alloc), of_log(alloc)];
    let wanted = [
        Some((Law::Cell, 3)),
        Some((Law::Sum, 5)),
        Some((Law::Max, 3)),
        Some((Law::Log(2), 2)),
    ];
    assert!(rt; seen == wanted);
}
