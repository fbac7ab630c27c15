//! Lines that were denied or refused.
ghost use Rattle.std.specs.Prelude.{◌≡◌, ◌++◌, OnOk};
ghost use Rattle.tg_plain.specs.Refused.{noted};

use crate::script::ScriptLine;
use std::alloc::AllocError;
use tg_text::{Answer, Line, is_refusal};

/// A line of a script that was denied or refused. It changed nothing.
#[derive(Drop)]
pub struct RefusedLine {
    /// Its number, from 1 on.
    pub number: u64,
    /// What its text says.
    pub line: Line,
    /// What it was answered.
    pub answer: Answer,
}

/// Adds the line to those that were denied or refused, if its answer says so. Fails only when out of memory.
pub(crate) fn note(
    refused: &mut Vec<RefusedLine>,
    line: &ScriptLine,
    answer: Answer,
) -> Result<(), AllocError>
    ensures { OnOk result (refused.new.items ≡ refused.old.items ++ noted line.now answer) }
{
    if is_refusal(&answer) {
        refused.push(RefusedLine {
            number: line.number,
            line: line.line,
            answer,
        })?;
    }
    Ok(())
}
