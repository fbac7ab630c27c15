//! Payloads of the four kinds, side by side and in no box.
ghost use Rattle.std.specs.Prelude.{◌≡◌, ◌≤◌, ◌∷◌, [], IfOk};
ghost use Rattle.tg_model.specs.Law.{Fits};
ghost use Rattle.tg_model.specs.Rules.{written};
ghost use Rattle.tg_model.specs.declared.law.Law.TheVariants.{Cell, Sum, Max, Log};

use crate::{CellPayload, LogPayload, MaxPayload, Payload, SumPayload};
use std::alloc::{AllocError, Global};
use tg_model::Law;

/// A payload of one of the four kinds, of two words. Only the writes of a log take memory.
#[derive(Debug, Drop)]
pub struct LawPayload {
    kept: Kept,
}

// The numbers of a log are in a box, which its first write makes. So a payload takes two words wherever it is
// kept: a store has one for each vertex.
#[derive(Debug, Drop)]
enum Kept {
    Cell(CellPayload),
    Sum(SumPayload),
    Max(MaxPayload),
    EmptyLog(EmptyLog),
    Log(Box<LogPayload>),
}

// A log to which nothing was written.
#[derive(Debug, Drop)]
struct EmptyLog {
    alloc: Global,
    most: u32,
    ghost low: { 1 ≤ most },
    ghost high: { most ≤ 64 },
}

impl LawPayload {
    /// A payload that keeps the last number, and has this one as its state. Takes no memory.
    pub fn cell(number: u64) -> LawPayload
        ensures { ⟦<LawPayload as Payload>⟧.value result ≡ record { law = Cell; state = number ∷ [] } }
    {
        LawPayload {
            kept: Kept::Cell(CellPayload::new(number)),
        }
    }

    /// A payload that adds, modulo 2^64, and has this number as its state. Takes no memory.
    pub fn sum(number: u64) -> LawPayload
        ensures { ⟦<LawPayload as Payload>⟧.value result ≡ record { law = Sum; state = number ∷ [] } }
    {
        LawPayload {
            kept: Kept::Sum(SumPayload::new(number)),
        }
    }

    /// A payload that keeps the greatest number, and has this one as its state. Takes no memory.
    pub fn max(number: u64) -> LawPayload
        ensures { ⟦<LawPayload as Payload>⟧.value result ≡ record { law = Max; state = number ∷ [] } }
    {
        LawPayload {
            kept: Kept::Max(MaxPayload::new(number)),
        }
    }

    /// A payload that keeps the last `most` numbers, from 1 to 64, oldest first, and has an empty state. Takes no
    /// memory.
    pub fn log(alloc: Global, most: u32) -> LawPayload
        requires low { 1 ≤ most }
        requires high { most ≤ 64 }
        ensures { ⟦<LawPayload as Payload>⟧.value result ≡ record { law = Log most; state = [] } }
    {
        LawPayload {
            kept: Kept::EmptyLog(EmptyLog { alloc, most }),
        }
    }

    /// A payload of this law with this state, which has to fit the law. Takes memory only for the numbers of a log.
    /// Fails only when out of memory.
    pub fn of(alloc: Global, law: Law, state: &[u64]) -> Result<LawPayload, AllocError>
        requires { Fits law state.now }
        ensures { IfOk result (λ payload. ⟦<LawPayload as Payload>⟧.value payload ≡ record { law = law; state = state.now }) }
    {
        match law {
            Law::Cell => Ok(LawPayload::cell(state[0])),
            Law::Sum => Ok(LawPayload::sum(state[0])),
            Law::Max => Ok(LawPayload::max(state[0])),
            Law::Log(most) => log_of(alloc, most, state),
        }
    }
}

// The log of the last `most` numbers that has these, oldest first. Fails only when out of memory.
fn log_of(alloc: Global, most: u32, state: &[u64]) -> Result<LawPayload, AllocError>
    requires { Fits (Log most) state.now }
    ensures { IfOk result (λ payload. ⟦<LawPayload as Payload>⟧.value payload ≡ record { law = Log most; state = state.now }) }
{
    let mut log = LawPayload::log(alloc, most);
    for number in state {
        log.write(*number)?;
    }
    Ok(log)
}

impl EmptyLog {
    // The log with its first number. Fails only when out of memory.
    fn with_first(&self, number: u64) -> Result<Box<LogPayload>, AllocError>
        ensures { IfOk result (λ log. ⟦<LogPayload as Payload>⟧.value log.value ≡ written number (record { law = Log self.now.most; state = [] })) }
    {
        let mut log = LogPayload::new(self.alloc, self.most);
        log.write(number)?;
        Ok(Box::new(self.alloc, log)?)
    }
}

impl Payload for LawPayload {
    ghost use Rattle.tg_payload.specs.Kinds.{law_value};

    ghost value = { law_value };

    fn law(&self) -> Law {
        match &self.kept {
            Kept::Cell(cell) => cell.law(),
            Kept::Sum(sum) => sum.law(),
            Kept::Max(max) => max.law(),
            Kept::EmptyLog(log) => Law::Log(log.most),
            Kept::Log(log) => log.law(),
        }
    }

    fn len(&self) -> usize {
        match &self.kept {
            Kept::Cell(_) | Kept::Sum(_) | Kept::Max(_) => 1,
            Kept::EmptyLog(_) => 0,
            Kept::Log(log) => log.len(),
        }
    }

    fn at(&self, i: usize) -> u64 {
        match &self.kept {
            Kept::Cell(cell) => cell.at(i),
            Kept::Sum(sum) => sum.at(i),
            Kept::Max(max) => max.at(i),
            Kept::EmptyLog(_) => unreachable!(),
            Kept::Log(log) => log.at(i),
        }
    }

    fn write(&mut self, number: u64) -> Result<(), AllocError> {
        match &mut self.kept {
            Kept::Cell(cell) => cell.write(number),
            Kept::Sum(sum) => sum.write(number),
            Kept::Max(max) => max.write(number),
            Kept::EmptyLog(log) => {
                self.kept = Kept::Log(log.with_first(number)?);
                Ok(())
            }
            Kept::Log(log) => log.write(number),
        }
    }
}
