//! Which law a vertex stores numbers by, for a worker and for the host.
ghost use Rattle.std.specs.Prelude.{◌≡◌};
ghost use Rattle.tg_c.specs.Laws.{AsksLawOf, AsksLawTo, TellsLaw, law_told as law_in_numbers};

use crate::forms::LawOut;
use crate::held::Holder;
use crate::place::StorePlace;
use crate::records::law_out;
use crate::refusal::CallRefusal;
use crate::tell::DONE;
use std::alloc::Global;
use tg_model::Law;

/// Returns the law of what a vertex stores, if the worker holds r, w or a over the vertex.
pub fn law_for_worker(
    alloc: Global,
    place: &mut StorePlace,
    worker: u64,
    name: u64,
) -> Result<Option<Law>, CallRefusal>
    ensures { AsksLawTo place.old place.new worker name (λ told. result ≡ told) }
{
    place.with_open(alloc, |opened| opened.law_to(worker, name))?
}

/// Returns the law of what a vertex stores, if the active subjects reach the vertex.
pub fn law_for_host(
    alloc: Global,
    place: &mut StorePlace,
    name: u64,
) -> Result<Option<Law>, CallRefusal>
    ensures { AsksLawOf place.old place.new name (λ told. result ≡ told) }
{
    place.with_open(alloc, |opened| opened.law_to_host(alloc, name))?
}

/// Reports a law, or that there is none. Returns the status.
pub fn tell_law(answer: Result<Option<Law>, CallRefusal>, out: &mut LawOut) -> u32
    ensures { TellsLaw result out.old out.new answer }
{
    match answer {
        Ok(law) => {
            *out = law_told(law);
            DONE
        }
        Err(refusal) => refusal.status(),
    }
}

// The law, for C.
fn law_told(law: Option<Law>) -> LawOut
    ensures { result ≡ law_in_numbers law }
{
    let (law, most) = match law {
        Some(law) => law_out(law),
        None => (15, 0),
    };
    LawOut { law, most }
}
