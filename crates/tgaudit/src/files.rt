//! Kept files that are given by their names. They are only read.

use crate::kept::{KeptAudit, audit_kept};
use std::fs;
use std::io::{self, Write};
use tg_found::{KeptFault, TornEnd, UnreadFile, bytes_left_out};
use tg_keep::{FileFault, FileReport, report_of, whole_front};

/// Audits a kept file, and prints what it has. The exit status.
pub(crate) fn audit_file(rt: &HostRuntime, path: &str) -> io::Result<u8> {
    let Some(file) = read_file(rt, path)? else {
        return Ok(1);
    };
    match audit_kept(rt.alloc(), file.as_slice()) {
        Ok(audit) => {
            print_audit(rt, path, &audit)?;
            print_end(rt, path, file.as_slice(), &audit.report)?;
            Ok(0)
        }
        Err(why) => {
            print_fault(rt, path, file.as_slice(), why)?;
            Ok(1)
        }
    }
}

/// Prints the whole lines of a kept file up to a damage, or up to its end. The exit status.
pub(crate) fn print_front(rt: &HostRuntime, path: &str) -> io::Result<u8> {
    let Some(file) = read_file(rt, path)? else {
        return Ok(1);
    };
    let file = file.as_slice();
    match report_of(file) {
        Ok(report) => {
            rt.stdout().write_all(report.lines)?;
            print_torn(rt, path, file, &report)?;
            Ok(0)
        }
        Err(fault) => print_undamaged(rt, path, file, fault),
    }
}

// Prints the lines before a damage, and how many bytes are left out. Or prints that the file isn't one of ours. The
// exit status.
fn print_undamaged(rt: &HostRuntime, path: &str, file: &[u8], fault: FileFault) -> io::Result<u8> {
    let FileFault::Damaged { .. } = fault else {
        print_fault(rt, path, file, KeptFault::File(fault))?;
        return Ok(1);
    };
    let front = whole_front(file);
    rt.stdout().write_all(front)?;
    let left_out = bytes_left_out(file, front.len());
    eprintln!(rt; "tgaudit: {path}: {fault}; bytes left out: {left_out}")?;
    Ok(1)
}

// The bytes of the file with this name. `None` if it can't be read, which is printed.
fn read_file(rt: &HostRuntime, path: &str) -> io::Result<Option<Vec<u8>>> {
    match fs::read(rt, path) {
        Ok(file) => Ok(Some(file)),
        Err(error) => {
            print_fault(rt, path, &[], KeptFault::File(FileFault::Io(error)))?;
            Ok(None)
        }
    }
}

// Prints how many entries and batches the file has, and its last line.
fn print_audit(rt: &HostRuntime, path: &str, audit: &KeptAudit) -> io::Result<()> {
    let entries = audit.entries;
    let batches = audit.report.batches;
    println!(rt; "{path}: audit ok, {entries} entries")?;
    println!(rt; "{path}: {batches} batches")?;
    print!(rt; "{path}: last line: ")?;
    rt.stdout().write_all(audit.report.last)?;
    println!(rt; "")
}

// Prints how the last run ended.
fn print_end(rt: &HostRuntime, path: &str, file: &[u8], report: &FileReport) -> io::Result<()> {
    if report.was_closed {
        return println!(rt; "{path}: the last run was closed");
    }
    println!(rt; "{path}: the last run wasn't closed: it was cut off, or it still goes on")?;
    print_torn(rt, path, file, report)
}

// Prints which bytes after the lines are no whole line, if there are some.
fn print_torn(rt: &HostRuntime, path: &str, file: &[u8], report: &FileReport) -> io::Result<()> {
    match TornEnd::of(file, report) {
        Some(end) => eprintln!(rt; "tgaudit: {path}: {end}"),
        None => Ok(()),
    }
}

// Prints why the file doesn't pass, and what would be right.
fn print_fault(rt: &HostRuntime, path: &str, bytes: &[u8], why: KeptFault) -> io::Result<()> {
    let unread = UnreadFile { bytes, why };
    eprintln!(rt; "tgaudit: {path}: {unread}")?;
    match unread.advice() {
        Some(advice) => eprintln!(rt; "tgaudit: {advice}"),
        None => Ok(()),
    }
}
