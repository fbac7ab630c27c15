//! A line that is longer than any but a listing's entry, of which the front is at hand.
ghost use Rattle.std.specs.Prelude.{◌≡◌, Bool, List, ℕ, IfOk, IfSome};
ghost use Rattle.tg_model.specs.Graph.{ProtectionGraph};
ghost use Rattle.tg_journal.specs.Auditing.{StandsAt};
ghost use Rattle.tg_entries.specs.Read.{ReadsOn, HasEntered, HasReadTo, IsListedEntry, entry_with};
ghost use Rattle.tg_entries.specs.Texts.{deed_text};

use crate::audit::{next_deed, open};
use crate::fault::{LineFault, LongFault};
use crate::kept::Means;
use crate::listing::is_listing;
use crate::read::front_part;
use crate::stage::{Entered, Stage};
use std::alloc::Global;
use std::io::BufRead;
use std::sync::ledger::Ledger;
use tg_journal::{Auditor, Entry};
use tg_model::{Deed, Reply};
use tg_text::Written;

/// Returns the stage after a long line. Only an entry that lists edges may have one.
pub(crate) fn long_stage<L: Ledger, R: BufRead>(
    means: Means,
    again: &mut Written<L>,
    stage: Stage,
    reader: &mut R,
    line: &mut Vec<u8>,
) -> Result<Stage, LongFault>
    ensures { (text : List ℕ) → HasReadTo means.keeps text stage → IfOk result (ReadsOn means.keeps text line.old.items (R.remaining reader.old) (R.remaining reader.new)) }
{
    match stage {
        Stage::Version => Err(LongFault::Line(LineFault::OtherVersion)),
        Stage::Opening(head) => { long_entry(means.alloc, again, open(means, head)?, reader, line) }
        Stage::Joint(entered) | Stage::Entries(entered) | Stage::Ended(entered) => {
            long_entry(means.alloc, again, entered, reader, line)
        }
        Stage::Limits | Stage::Saved(_) | Stage::Stopped => {
            Err(LongFault::Line(LineFault::BadLine))
        }
    }
}

// The next entry.
fn long_entry<L: Ledger, R: BufRead>(
    alloc: Global,
    again: &mut Written<L>,
    entered: Entered,
    reader: &mut R,
    line: &mut Vec<u8>,
) -> Result<Stage, LongFault>
    ensures { (keeps : Bool) (text : List ℕ) → HasEntered keeps text entered → IfOk result (ReadsOn keeps text line.old.items (R.remaining reader.old) (R.remaining reader.new)) }
{
    let mut entered = entered;
    let told = next_deed(alloc, again, front_part(line.as_slice()))?;
    let Some(next) = entered.count.checked_add(1) else {
        return Err(LongFault::Line(LineFault::BadLine));
    };
    let at = entered.auditor.at();
    let Some(reply) = next_listing(again, &mut entered.auditor, &told, reader, line)? else {
        return Err(LongFault::Line(LineFault::BadEntry { at }));
    };
    entered.count = next;
    let (worker, deed) = told;
    entered.keep(Entry {
        worker,
        deed,
        reply,
    })?;
    Ok(Stage::Entries(entered))
}

// The listing that the rules give the deed. The line has to be that of the deed, which was written again, with this
// listing.
fn next_listing<L: Ledger, R: BufRead>(
    again: &mut Written<L>,
    auditor: &mut Auditor,
    told: &(u64, Deed),
    reader: &mut R,
    line: &mut Vec<u8>,
) -> Result<Option<Reply>, LongFault>
    requires { again.old.bytes.items ≡ deed_text told.now.0 told.now.1 }
    ensures { (g : ProtectionGraph) → StandsAt g auditor.old → IfOk result (λ listing. IfSome listing (λ reply.
        IsListedEntry g auditor.old.at line.old.items (R.remaining reader.old) (R.remaining reader.new) auditor.new (entry_with told.now reply))) }
{
    let Some(Reply::Edges(edges)) = auditor.answer(told.0, &told.1)? else {
        return Ok(None);
    };
    if !is_listing(again, edges.as_slice(), reader, line)? {
        return Ok(None);
    }
    Ok(Some(Reply::Edges(edges)))
}
