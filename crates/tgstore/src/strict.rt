//! Lines that were denied or refused, which a strict run reports.
ghost use Rattle.std.specs.Prelude.{◌≡◌, ◌||◌, false};
ghost use Rattle.tg_text.specs.Refusing.{says_refusal};
ghost use Rattle.tgstore.specs.Strict.{status_if};

use std::io::Eprint;
use tg_script::{Answer, NumberedLine, Refusal, Watch, is_refusal};
use tg_text::AsText;

/// The exit status of a strict run to the end of its script, if a line was denied or refused.
pub const REFUSED_LINES: u8 = 3;

/// Reports each line that is denied or refused on standard error, if the run is strict.
#[derive(Drop)]
pub(crate) struct StrictWatch<'a, R: Eprint> {
    rt: &'a R,
    is_strict: bool,
    /// Whether a line was denied or refused. If the run isn't strict, this isn't noted.
    pub has_refused: bool,
}

impl<'a, R: Eprint> StrictWatch<'a, R> {
    /// No line was denied or refused.
    pub(crate) fn new(rt: &'a R, is_strict: bool) -> StrictWatch<'a, R>
        ensures strict { result.is_strict ≡ is_strict }
        ensures none { result.has_refused ≡ false }
    {
        StrictWatch {
            rt,
            is_strict,
            has_refused: false,
        }
    }

    // Notes and reports a line that was denied or refused.
    #[inline(never)]
    fn note(&mut self, number: u64, answer: &Answer)
        ensures strict { self.new.is_strict ≡ self.old.is_strict }
        ensures noted { self.new.has_refused ≡ (self.old.has_refused || says_refusal answer.now) }
    {
        if is_refusal(answer) {
            self.has_refused = true;
            report(self.rt, number, answer);
        }
    }
}

/// The exit status of a run to the end of its script. It is 3 if the run is strict and a line was denied or refused,
/// else 0.
pub fn strict_status(is_strict: bool, has_refused: bool) -> u8
    ensures { result ≡ status_if is_strict has_refused }
{
    if is_strict && has_refused {
        return REFUSED_LINES;
    }
    0
}

impl<R: Eprint> Watch for StrictWatch<'_, R> {
    ghost use Rattle.tgstore.specs.Strict.{seen_if};

    ghost refused = { λ w. seen_if w.is_strict w.has_refused };

    #[inline(always)]
    #[tactic(auto, using(crate::proofs::StrictLaws::seen_noted, crate::proofs::StrictLaws::unseen))]
    fn see(&mut self, line: &NumberedLine, answer: &Answer) {
        if !self.is_strict {
            return;
        }
        self.note(line.number, answer);
    }
}

// Reports a line that was denied or refused, with its number and its reply.
fn report<R: Eprint>(rt: &R, number: u64, answer: &Answer) {
    match answer {
        Answer::Reply(reply) => {
            let _ = eprintln!(rt; "tgstore: line {number}: {}", AsText(reply));
        }
        Answer::Refused(refusal) => {
            let reply = refusal_text(*refusal);
            let _ = eprintln!(rt; "tgstore: line {number}: {reply}");
        }
        Answer::Collected(_) => (),
    }
}

// The reply of a refusal, and what helps.
fn refusal_text(refusal: Refusal) -> &'static str {
    match refusal {
        Refusal::Memory => "refused memory: memory ran out",
        Refusal::Heap => "refused heap: no block is left, give more by --blocks",
        Refusal::Vertices => "refused vertices: no name is left, give more by --vertices",
        Refusal::Workers => "refused workers: 64 workers are active",
        Refusal::Worker => "refused worker: the number in front is that of no active worker",
        Refusal::Threads =>
            "refused threads: no thread could be started, ask for fewer by --helpers",
        Refusal::Stock => "refused stock: no box is left, give more by --stock",
    }
}
