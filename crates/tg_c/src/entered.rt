//! Entries that C hands in. An entry comes as a record, its numbers and its edges, as `tg_entry` writes them. None of
//! it is trusted. Only one entry can have this record. That entry is read from the record and written to a second
//! record, and the two records are compared.
ghost use Rattle.std.specs.Prelude.{◌≡◌, ◌↔◌, ◌⊎◌, ◌≤◌, IfOk, IsTrue, false, map};
ghost use Rattle.tg_c.specs.Entered.{IsEntryOf, IsOfNoEntry};
ghost use Rattle.tg_c.specs.Inner.Reading.{AreLabelled, HasForm, cause_read as cause_told, command_read as command_told, deed_read as deed_told, edge_read, entry_read as entry_told, label_read as label_told, law_read as law_told, reply_read as reply_told, rights_read as rights_told, rule_read as rule_told};

use crate::forms::{DenialOut, EdgeOut, label_of};
use crate::records::{RecordOut, record_out};
use std::alloc::{AllocError, Global};
use tg_journal::Entry;
use tg_model::{Cause, Command, Deed, Denial, EdgeList, Law, Numbers, Reply, Rule};
use tg_rights::{Label, Right, Rights};

/// Whether `tg_entry` writes the record, the numbers and the edges for some entry. Takes no memory.
pub fn is_told(alloc: Global, it: &RecordOut, numbers: &[u64], edges: &[EdgeOut]) -> bool
    ensures told { IsTrue result → IsEntryOf it.now numbers.now edges.now (entry_told it.now numbers.now edges.now) }
    ensures none { result ≡ false → IsOfNoEntry it.now numbers.now edges.now }
{
    if is_making_of_values(it) {
        return false;
    }
    if !is_counted(it.number_count, numbers.len(), has_numbers(it)) {
        return false;
    }
    if !is_counted(it.edge_count, edges.len(), it.reply == 4) {
        return false;
    }
    if !has_form(alloc, it) {
        return false;
    }
    have_labels(edges)
}

// Whether the record has a create or a spawn that is answered by values. No entry has this form.
fn is_making_of_values(it: &RecordOut) -> bool
    ensures { IsTrue result ↔ ((16 ≤ it.now.deed) × (it.now.reply ≡ 3)) }
{
    16 <= it.deed && it.reply == 3
}

// Whether numbers go with the record. They are the numbers that a vertex stores at first, or the numbers that were
// read.
fn has_numbers(it: &RecordOut) -> bool
    ensures { IsTrue result ↔ ((16 ≤ it.now.deed) ⊎ (it.now.reply ≡ 3)) }
{
    16 <= it.deed || it.reply == 3
}

// Whether a list is as long as its record says, and is empty if it doesn't go with the record.
fn is_counted(count: u64, length: usize, goes: bool) -> bool
    ensures { IsTrue result ↔ ((count ≡ length) × (IsTrue goes ⊎ (length ≡ 0))) }
{
    count == length as u64 && (goes || length == 0)
}

// Whether the entry that is read from the record, without its lists, is written as this record.
fn has_form(alloc: Global, it: &RecordOut) -> bool
    ensures { IsTrue result ↔ HasForm it.now }
{
    let entry = Entry {
        worker: it.worker,
        deed: deed_read(it, Numbers::none()),
        reply: reply_read(it, Numbers::none(), EdgeList::from_vec(Vec::new(alloc))),
    };
    let bare = RecordOut {
        number_count: 0,
        edge_count: 0,
        ..*it
    };
    record_out(&entry).same(&bare)
}

// Whether the rights of each edge make a label.
fn have_labels(edges: &[EdgeOut]) -> bool
    ensures { IsTrue result ↔ AreLabelled edges.now }
{
    for edge in edges {
        match label_of(edge.rights) {
            Ok(_) => {}
            Err(_) => return false,
        }
    }
    true
}

/// Returns the entry that is written as the record, the numbers and the edges. If no entry is written so, it returns
/// another entry. Fails only when out of memory.
pub fn entry_read(
    alloc: Global,
    it: &RecordOut,
    numbers: &[u64],
    edges: &[EdgeOut],
) -> Result<Entry, AllocError>
    ensures { IfOk result (λ entry. entry ≡ entry_told it.now numbers.now edges.now) }
{
    let deed = deed_read(it, Numbers::from_slice(alloc, numbers)?);
    let values = Numbers::from_slice(alloc, numbers)?;
    let listed = edges_read(alloc, edges)?;
    Ok(Entry {
        worker: it.worker,
        deed,
        reply: reply_read(it, values, listed),
    })
}

// The deed.
fn deed_read(it: &RecordOut, state: Numbers) -> Deed
    ensures { result ≡ deed_told it.now state }
{
    match it.deed {
        16 => Deed::Create {
            label: label_read(it.rights),
            law: law_read(it.law, it.most),
            state,
        },
        17 => Deed::Spawn {
            label: label_read(it.rights),
            law: law_read(it.law, it.most),
            state,
        },
        _ => Deed::Plain(command_read(it)),
    }
}

// The command.
fn command_read(it: &RecordOut) -> Command
    ensures { result ≡ command_told it.now }
{
    let rights = label_read(it.rights);
    let RecordOut {
        via,
        target,
        value,
        ..
    } = *it;
    match it.deed {
        0 => Command::Take {
            rights,
            via,
            target,
        },
        1 => Command::Grant {
            rights,
            via,
            target,
        },
        2 => Command::Remove { rights, target },
        3 => Command::Read { target },
        4 => Command::Write { target, value },
        5 => Command::Append { target, value },
        6 => Command::Inspect { target },
        9 => Command::Retire,
        _ => Command::List,
    }
}

// The law by its number. A log keeps `most` numbers.
fn law_read(number: u32, most: u32) -> Law
    ensures { result ≡ law_told number most }
{
    match number {
        0 => Law::Cell,
        1 => Law::Sum,
        2 => Law::Max,
        _ => Law::Log(most),
    }
}

// The reply.
fn reply_read(it: &RecordOut, values: Numbers, listed: EdgeList) -> Reply
    ensures { result ≡ reply_told it.now values listed }
{
    match it.reply {
        1 => Reply::Denied(denial_read(&it.denial)),
        2 => Reply::Name(it.name),
        3 => Reply::Values(values),
        4 => Reply::Edges(listed),
        16 => Reply::VerticesFull,
        17 => Reply::WorkersFull,
        _ => Reply::Done,
    }
}

// The denial.
fn denial_read(denial: &DenialOut) -> Denial
    ensures { result ≡ record { rule = rule_told denial.now.rule; cause = cause_told denial.now } }
{
    let cause = match denial.cause {
        0 => Cause::NotDistinct,
        1 => Cause::Missing {
            rights: rights_read(denial.rights),
            from: denial.from,
            to: denial.to,
        },
        _ => Cause::NotLog,
    };
    Denial {
        rule: rule_read(denial.rule),
        cause,
    }
}

// The rule.
fn rule_read(number: u32) -> Rule
    ensures { result ≡ rule_told number }
{
    match number {
        0 => Rule::Take,
        1 => Rule::Grant,
        2 => Rule::Remove,
        3 => Rule::Read,
        4 => Rule::Write,
        5 => Rule::Append,
        _ => Rule::Inspect,
    }
}

// The edges.
fn edges_read(alloc: Global, edges: &[EdgeOut]) -> Result<EdgeList, AllocError>
    ensures { IfOk result (λ list. list ≡ map edge_read edges.now) }
{
    let mut list = Vec::new(alloc);
    for edge in edges {
        list.push((edge.to, label_read(edge.rights)))?;
    }
    Ok(EdgeList::from_vec(list))
}

// The label of the bits. If the bits are no label, it is r alone.
fn label_read(rights: u64) -> Label
    ensures { result ≡ label_told rights }
{
    if let Ok(label) = label_of(rights) {
        return label;
    }
    match Label::new(Rights::of(Right::R)) {
        Some(label) => label,
        None => unreachable!(),
    }
}

// The rights of the bits. If a bit is no right, the set is empty.
fn rights_read(rights: u64) -> Rights
    ensures { result ≡ rights_told rights }
{
    if 255 < rights {
        return Rights::empty();
    }
    Rights::from_bits(rights as u8)
}
