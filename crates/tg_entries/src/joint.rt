//! The line after a snapshot, which may have the sum of the part before.
ghost use Rattle.std.specs.Prelude.{◌≡◌, ◌++◌, Bool, List, ℕ, IfOk};
ghost use Rattle.tg_entries.specs.Read.{HasReadTo, HasReopened};
ghost use Rattle.tg_entries.specs.Texts.{sum_text};

use crate::audit::entries_line;
use crate::fault::LineFault;
use crate::part::{Part, check_part};
use crate::read::read_sum;
use crate::stage::{Entered, Stage};
use std::alloc::Global;
use std::sync::ledger::Ledger;
use tg_text::Written;

/// Reads the line after a snapshot: the sum of the part before, or the first line without it. The sum is kept, and
/// nothing is compared with it.
pub(crate) fn joint_line<L: Ledger>(
    alloc: Global,
    again: &mut Written<L>,
    entered: Entered,
    line: &[u8],
) -> Result<Stage, LineFault>
    ensures { (keeps : Bool) (text : List ℕ) → HasReopened keeps text entered → IfOk result (HasReadTo keeps (text ++ line.now)) }
{
    if !line.starts_with(b"sha256 ") {
        return entries_line(alloc, again, entered, line);
    }
    let sum = next_sum(again, line)?;
    let mut entered = entered;
    entered.before = Some(sum);
    Ok(Stage::Entries(entered))
}

// The sum that the line has.
fn next_sum<L: Ledger>(again: &mut Written<L>, line: &[u8]) -> Result<[u8; 32], LineFault>
    ensures { IfOk result (λ sum. line.now ≡ sum_text sum) }
{
    let Some(sum) = read_sum(line) else {
        return Err(LineFault::BadLine);
    };
    check_part(again, &Part::Sum(&sum), line)?;
    Ok(sum)
}
