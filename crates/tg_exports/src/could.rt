//! The functions by which C asks what could ever come about, and reads the answer.
ghost use Rattle.std.specs.Prelude.{◌≡◌, true, false, Ok, length};
ghost use Rattle.tg_c.specs.Could.{Consults, Foresees, ForeseesKind, TellsTurn, kind_in, names_told, turn_at, turns_in, turn_told};
ghost use Rattle.tg_c.specs.Policy.{AsksPolicy, place_out};
ghost use Rattle.tg_c.specs.Statuses.{TellsNumber, status_of};

use std::alloc::Global;
use tg_c::answer::AnswerPlace;
use tg_c::could::tell_turn;
use tg_c::foresee::{foresee, foresee_kind};
use tg_c::forms::{EdgeIn, QuestionIn};
use tg_c::held::Holder;
use tg_c::place::StorePlace;
use tg_c::policy::first_breach;
use tg_c::records::RecordOut;
use tg_c::refusal::CallRefusal;
use tg_c::tell::{DONE, tell_number};

/// Answers whether x could ever come to hold a right over y. All workers may take turns, except the silent ones. The
/// edges of `as_if` are supposed to be there too. The answer goes to a place that is closed. The store is as it was,
/// and its journal gets no entry.
#[unsafe(no_mangle)]
pub extern "C" fn tg_could(
    alloc: Global,
    store: &mut StorePlace,
    silent: &[u64],
    as_if: &[EdgeIn],
    x: u64,
    right: u64,
    y: u64,
    answer: &mut AnswerPlace,
) -> u32
    ensures { Foresees store.old store.new silent.now as_if.now x right y answer.old answer.new result }
{
    let asked = QuestionIn { x, right, y };
    match foresee(alloc, store, silent, as_if, asked, answer.is_open) {
        Ok(opened) => {
            answer.put(opened);
            DONE
        }
        Err(refusal) => refusal.status(),
    }
}

/// Answers as [`tg_could`] does, and writes the kind of the answer alone to `kind`, as [`tg_answer_kind`] has it.
#[unsafe(no_mangle)]
pub extern "C" fn tg_could_kind(
    alloc: Global,
    store: &mut StorePlace,
    silent: &[u64],
    as_if: &[EdgeIn],
    x: u64,
    right: u64,
    y: u64,
    kind: &mut u64,
) -> u32
    ensures { ForeseesKind store.old store.new silent.now as_if.now x right y (TellsNumber result kind.old kind.new) }
{
    let asked = QuestionIn { x, right, y };
    tell_number(foresee_kind(alloc, store, silent, as_if, asked), kind)
}

/// Asks many questions at once, each of which is to be answered never. The place of the first one that isn't goes to
/// `at`, and its answer to a place that is closed. If each is answered never, `at` gets the number of questions, and the
/// answer's place is as it was. The store is as it was, and its journal gets no entry.
#[unsafe(no_mangle)]
pub extern "C" fn tg_could_any(
    alloc: Global,
    store: &mut StorePlace,
    silent: &[u64],
    as_if: &[EdgeIn],
    questions: &[QuestionIn],
    at: &mut u64,
    answer: &mut AnswerPlace,
) -> u32
    ensures { AsksPolicy store.old store.new silent.now as_if.now questions.now (place_out at.old at.new) answer.old answer.new result }
{
    match first_breach(alloc, store, silent, as_if, questions, answer.is_open) {
        Ok(Some(breach)) => {
            *at = breach.place;
            answer.put(breach.answer);
            DONE
        }
        Ok(None) => {
            *at = questions.len() as u64;
            DONE
        }
        Err(refusal) => refusal.status(),
    }
}

/// The kind of an answer goes to `kind`: 0 never, 1 now, 2 could, 3 could with more names, 4 unreached, 5 open.
#[unsafe(no_mangle)]
pub extern "C" fn tg_answer_kind(alloc: Global, answer: &mut AnswerPlace, kind: &mut u64) -> u32
    ensures { Consults (λ told. Ok (kind_in told)) answer.old answer.new (TellsNumber result kind.old kind.new) }
{
    tell_number(answer.with_open(alloc, |opened| opened.kind()), kind)
}

/// Writes to `names` how many names an answer needs beyond the names that are left. An answer that needs none writes 0.
#[unsafe(no_mangle)]
pub extern "C" fn tg_answer_names(alloc: Global, answer: &mut AnswerPlace, names: &mut u64) -> u32
    ensures { Consults (λ told. Ok (names_told told)) answer.old answer.new (TellsNumber result names.old names.new) }
{
    tell_number(answer.with_open(alloc, |opened| opened.names()), names)
}

/// How many turns an answer has goes to `count`.
#[unsafe(no_mangle)]
pub extern "C" fn tg_answer_turns(alloc: Global, answer: &mut AnswerPlace, count: &mut u64) -> u32
    ensures { Consults (λ told. Ok (length (turns_in told))) answer.old answer.new (TellsNumber result count.old count.new) }
{
    tell_number(
        answer.with_open(alloc, |opened| opened.turns().len() as u64),
        count,
    )
}

/// Reads the turn of an answer at this place, counted from 0. The record goes to `out`, and has no reply. The first
/// numbers that a vertex is to store at first go to `numbers`, as many as there is room for. Takes no memory.
#[unsafe(no_mangle)]
pub extern "C" fn tg_answer_turn(
    alloc: Global,
    answer: &mut AnswerPlace,
    at: u64,
    out: &mut RecordOut,
    numbers: &mut [u64],
) -> u32
    ensures { Consults (turn_at at) answer.old answer.new (TellsTurn result
        (turn_told out.old numbers.old)
        (turn_told out.new numbers.new)) }
{
    let Some(opened) = answer.take(alloc) else {
        return CallRefusal::NotOpen.status();
    };
    let status = tell_turn(&opened, at, out, numbers);
    answer.put(opened);
    status
}

/// Gives back all memory of an answer. The place is closed then, whether it was open or not.
#[unsafe(no_mangle)]
pub extern "C" fn tg_answer_close(alloc: Global, answer: &mut AnswerPlace) -> u32
    ensures closed { answer.new.is_open ≡ false }
    ensures done { answer.old.is_open ≡ true → result ≡ 0 }
    ensures not_open { answer.old.is_open ≡ false → result ≡ status_of CallRefusal.NotOpen }
{
    match answer.take(alloc) {
        Some(_opened) => DONE,
        None => CallRefusal::NotOpen.status(),
    }
}
