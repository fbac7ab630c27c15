//! The lines that are printed of a reply.

use crate::fault::StoryFault;
use std::io;
use tg_model::{Cause, Denial, Reply};
use tg_rights::{Label, Rights};

/// Prints what was asked for, and the reply.
pub fn tell_reply<R: Print>(rt: &R, asked: &str, reply: &Reply) -> Result<(), StoryFault> {
    Ok(print_reply(rt, asked, reply)?)
}

fn print_reply<R: Print>(rt: &R, asked: &str, reply: &Reply) -> io::Result<()> {
    match reply {
        Reply::Done => print(rt, asked, "ok"),
        Reply::Name(name) => println!(rt; "{asked}: ok, its name is {name}"),
        Reply::Values(values) => println!(rt; "{asked}: ok, {:?}", values.as_slice()),
        Reply::Denied(denial) => print_denial(rt, asked, denial),
        // No story lists edges, or comes to a limit.
        Reply::Edges(_) | Reply::VerticesFull | Reply::WorkersFull => print(rt, asked, "answered"),
    }
}

// Prints what was asked for, and the outcome.
fn print<R: Print>(rt: &R, asked: &str, outcome: &str) -> io::Result<()> {
    println!(rt; "{asked}: {outcome}")
}

/// Prints how many entries a journal has, which passed its audit.
pub fn tell_audit<R: Print>(rt: &R, entries: u64) -> Result<(), StoryFault> {
    println!(rt; "audit ok, {entries} entries")?;
    Ok(())
}

// Prints why a command was denied. Two of its vertices are the same, rights are missing on an edge, or its target
// stores no log.
fn print_denial<R: Print>(rt: &R, asked: &str, denial: &Denial) -> io::Result<()> {
    match denial.cause {
        Cause::NotDistinct => print(rt, asked, "denied, its vertices have to differ"),
        Cause::Missing { from, to, rights } => print_missing(rt, asked, from, to, rights),
        Cause::NotLog => print(rt, asked, "denied, its target has to be a log"),
    }
}

fn print_missing<R: Print>(
    rt: &R,
    asked: &str,
    from: u64,
    to: u64,
    rights: Rights,
) -> io::Result<()> {
    match Label::new(rights) {
        Some(label) => println!(rt; "{asked}: denied, {label} is missing on {from}->{to}"),
        None => print(rt, asked, "denied"),
    }
}
