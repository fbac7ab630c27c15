//! How C gets an answer, which is a status and the out parameters. A refusal writes to no out parameter.
ghost use Rattle.std.specs.Prelude.{◌≡◌, IfOk};
ghost use Rattle.tg_c.specs.Calls.{IsDoneReply, IsDoneOrDenied, IsListReply, IsListedOrDenied, IsReadOrDenied};
ghost use Rattle.tg_graph.specs.Shown.{shown_in};
ghost use Rattle.tg_c.specs.Forms.{edges_shown_in};
ghost use Rattle.tg_c.specs.Statuses.{TellsCensus, TellsDone, TellsEntry, TellsInspect, TellsList, TellsNumber, TellsOnly, TellsRead, TellsRetired, entry_out, inspect_out, list_out, read_out};
ghost use Rattle.tg_c.specs.Records.{entry_at};
ghost use Rattle.tg_subjects.specs.Subjects.{names_of};

use crate::forms::{CensusOut, DenialOut, EdgeOut, census_out, denial_out, edge_out};
use crate::records::{RecordOut, edges_of, numbers_of, record_out};
use crate::refusal::CallRefusal;
use tg_journal::Journal;
use tg_model::Reply;
use tg_rights::Label;
use tg_store::Census;
use tg_subjects::Subject;

/// The status of a command that was done.
pub const DONE: u32 = 0;

/// The status of a command that was denied.
pub const DENIED: u32 = 1;

/// Reports that a command was done, or why it was denied.
pub fn tell_done(answer: Result<Reply, CallRefusal>, denial: &mut DenialOut) -> u32
    requires { IfOk answer IsDoneOrDenied }
    ensures { TellsDone result denial.old denial.new answer }
{
    match &answer {
        Ok(Reply::Done) => DONE,
        Ok(Reply::Denied(why)) => {
            *denial = denial_out(why);
            DENIED
        }
        Ok(_) => unreachable!(),
        Err(refusal) => refusal.status(),
    }
}

/// Writes the numbers that were read, as many as there is room for, and how many there are. Or it reports why the read
/// was denied.
pub fn tell_read(
    answer: Result<Reply, CallRefusal>,
    numbers: &mut [u64],
    count: &mut u64,
    denial: &mut DenialOut,
) -> u32
    requires { IfOk answer IsReadOrDenied }
    ensures { TellsRead result (read_out count.old numbers.old denial.old)
        (read_out count.new numbers.new denial.new) answer }
{
    match &answer {
        Ok(Reply::Values(values)) => {
            *count = values.as_slice().len() as u64;
            put_numbers(values.as_slice(), numbers);
            DONE
        }
        Ok(Reply::Denied(why)) => {
            *denial = denial_out(why);
            DENIED
        }
        Ok(_) => unreachable!(),
        Err(refusal) => refusal.status(),
    }
}

/// Writes the edges that were listed, as many as there is room for, and how many there are.
pub fn tell_list(answer: Result<Reply, CallRefusal>, edges: &mut [EdgeOut], count: &mut u64) -> u32
    requires { IfOk answer IsListReply }
    ensures { TellsList result (list_out count.old edges.old) (list_out count.new edges.new) answer }
{
    match &answer {
        Ok(Reply::Edges(list)) => {
            *count = list.as_slice().len() as u64;
            put_edges(list.as_slice(), edges);
            DONE
        }
        Ok(_) => unreachable!(),
        Err(refusal) => refusal.status(),
    }
}

/// Writes the edges that were inspected, as many as there is room for, and how many there are. Or it reports why the
/// command was denied.
pub fn tell_inspect(
    answer: Result<Reply, CallRefusal>,
    edges: &mut [EdgeOut],
    count: &mut u64,
    denial: &mut DenialOut,
) -> u32
    requires { IfOk answer IsListedOrDenied }
    ensures { TellsInspect result (inspect_out count.old edges.old denial.old)
        (inspect_out count.new edges.new denial.new) answer }
{
    match &answer {
        Ok(Reply::Edges(list)) => {
            *count = list.as_slice().len() as u64;
            put_edges(list.as_slice(), edges);
            DONE
        }
        Ok(Reply::Denied(why)) => {
            *denial = denial_out(why);
            DENIED
        }
        Ok(_) => unreachable!(),
        Err(refusal) => refusal.status(),
    }
}

/// Reports that a subject retired.
pub fn tell_retired(answer: Result<Reply, CallRefusal>) -> u32
    requires { IfOk answer IsDoneReply }
    ensures { TellsRetired result answer }
{
    match &answer {
        Ok(Reply::Done) => DONE,
        Ok(_) => unreachable!(),
        Err(refusal) => refusal.status(),
    }
}

/// Writes a number.
pub fn tell_number(answer: Result<u64, CallRefusal>, out: &mut u64) -> u32
    ensures { TellsNumber result out.old out.new answer }
{
    match answer {
        Ok(number) => {
            *out = number;
            DONE
        }
        Err(refusal) => refusal.status(),
    }
}

/// Writes the counts of the heap.
pub fn tell_census(answer: Result<Census, CallRefusal>, out: &mut CensusOut) -> u32
    ensures { TellsCensus result out.old out.new answer }
{
    match answer {
        Ok(census) => {
            *out = census_out(census);
            DONE
        }
        Err(refusal) => refusal.status(),
    }
}

/// Reports that something was done.
pub fn tell_only(answer: Result<(), CallRefusal>) -> u32
    ensures { TellsOnly result answer }
{
    match answer {
        Ok(()) => DONE,
        Err(refusal) => refusal.status(),
    }
}

/// Writes the journal's entry at a place, if the journal holds it. The record goes to `out`. The first numbers and
/// edges of the entry go to `numbers` and `edges`, as many as there is room for.
pub fn tell_entry(
    journal: &Journal,
    at: u64,
    out: &mut RecordOut,
    numbers: &mut [u64],
    edges: &mut [EdgeOut],
) -> u32
    ensures { TellsEntry result (entry_out out.old numbers.old edges.old)
        (entry_out out.new numbers.new edges.new) (entry_at journal.now.start journal.now.entries at) }
{
    if at < journal.start() || journal.len() <= at {
        return CallRefusal::BadPlace.status();
    }
    let entry = journal.entry(at);
    *out = record_out(entry);
    put_numbers(numbers_of(entry), numbers);
    put_edges(edges_of(entry), edges);
    DONE
}

/// As many numbers as there is room for.
pub fn put_numbers(numbers: &[u64], out: &mut [u64])
    ensures { out.new ≡ shown_in numbers.now out.old }
{
    let count = numbers.len().min(out.len());
    out[..count].copy_from_slice(&numbers[..count]);
}

/// The names of as many subjects as there is room for.
pub fn put_names(subjects: &[Subject], out: &mut [u64])
    ensures { out.new ≡ shown_in (names_of subjects.now) out.old }
{
    let count = subjects.len().min(out.len());
    for i in 0..count {
        out[i] = subjects[i].name;
    }
}

/// As many edges as there is room for.
pub fn put_edges(edges: &[(u64, Label)], out: &mut [EdgeOut])
    ensures { out.new ≡ edges_shown_in edges.now out.old }
{
    let count = edges.len().min(out.len());
    for i in 0..count {
        out[i] = edge_out(edges[i]);
    }
}
