//! The lines of the script that were denied or refused, and their messages on standard error.

use std::alloc::{AllocError, Global};
use std::str;
use tg_model::{Cause, MAX_WORKERS, Reply};
use tg_plain::{PlainFault, PlainText, RefusedLine};
use tg_text::{Answer, Refusal, line_bytes};

// So many bytes are printed at once.
const BLOCK: usize = 65536;

/// Reports each of these lines on standard error, with its number, its text and its answer in words, and then whether
/// they fail the policies. Fails when out of memory, or if a line isn't printed.
pub fn report<R: AllocGlobal + Eprint>(
    rt: &R,
    refused: &[RefusedLine],
    fails: bool,
) -> Result<(), PlainFault> {
    let mut text = PlainText::new(rt.alloc());
    for line in refused {
        add_report(&mut text, rt.alloc(), line);
        if text.len() >= BLOCK {
            print(rt, &text)?;
            text.clear();
        }
    }
    if fails {
        add_failure(&mut text, refused.len());
    }
    print(rt, &text)
}

// Appends that no policy passes, because so many lines were denied or refused.
fn add_failure(text: &mut PlainText, lines: usize) {
    text.add("tgcould: --never: ");
    text.add_number(lines as u64);
    text.add(if lines == 1 {
        " line was"
    } else {
        " lines were"
    });
    text.add(" denied or refused, so no policy passes; --allow-denied allows it\n");
}

// Appends the report of a line.
fn add_report(text: &mut PlainText, alloc: Global, refused: &RefusedLine) {
    text.add("tgcould: line ");
    text.add_number(refused.number);
    text.add(": '");
    match line_bytes(alloc, refused.line) {
        Ok(bytes) => text.add_bytes(bytes.as_slice()),
        Err(_) => text.is_short = true,
    }
    text.add("' was ");
    add_answer(text, &refused.answer);
    text.add("\n");
}

// Appends that a line was denied or refused, and why.
fn add_answer(text: &mut PlainText, answer: &Answer) {
    match answer {
        Answer::Reply(reply) => add_reply(text, reply),
        Answer::Refused(Refusal::Stock) => text.add(
            "refused: no box is left: give more by --stock",
        ),
        Answer::Refused(_) => text.add("refused: the number in front is that of no active subject"),
        Answer::Collected(_) => (),
    }
}

// Appends why a command was denied, or why no vertex could be made.
fn add_reply(text: &mut PlainText, reply: &Reply) {
    match reply {
        Reply::Denied(denial) => {
            text.add("denied: ");
            add_cause(text, denial.cause);
        }
        Reply::VerticesFull => text.add("refused: no vertex is left: give more by --vertices"),
        Reply::WorkersFull => {
            text.add("refused: ");
            text.add_number(MAX_WORKERS);
            text.add(" subjects are active, and more may not be");
        }
        Reply::Done | Reply::Name(_) | Reply::Values(_) | Reply::Edges(_) => (),
    }
}

// Appends which check failed.
fn add_cause(text: &mut PlainText, cause: Cause) {
    match cause {
        Cause::NotDistinct => text.add("two of its vertices are one"),
        Cause::Missing { rights, from, to } => {
            text.add_rights(rights);
            text.add(" is missing on ");
            text.add_number(from);
            text.add("->");
            text.add_number(to);
        }
        Cause::NotLog => text.add("the target stores no log"),
    }
}

// Prints the text on standard error. `OutOfMemory` is returned if memory ran out for it.
fn print<R: Eprint>(rt: &R, text: &PlainText) -> Result<(), PlainFault> {
    if text.is_short {
        return Err(PlainFault::OutOfMemory(AllocError));
    }
    // All of it is ASCII.
    let printed = str::from_utf8(text.bytes.as_slice()).unwrap_or("");
    rt.eprint(printed)?;
    Ok(())
}
