//! How a worker hands rights on from C.
ghost use Rattle.std.specs.Prelude.{◌≡◌};
ghost use Rattle.tg_c.specs.Handing.{HandsRights, TellsHanded, hand_of, hand_out};

use crate::forms::{DenialOut, HandIn, denial_out, rights_out};
use crate::held::Holder;
use crate::place::StorePlace;
use crate::refusal::CallRefusal;
use crate::tell::{DENIED, DONE};
use std::alloc::Global;
use tg_rights::Label;
use tg_store::{Hand, Handed};

/// The hand that C asks for, with the label of its rights.
pub fn hand_with(form: &HandIn, rights: Label) -> Hand
    ensures { result ≡ hand_of form.now rights }
{
    Hand {
        via: form.via,
        from: form.from,
        to: form.to,
        target: form.target,
        rights,
    }
}

/// A worker of the store in the place hands rights on.
pub fn hand_on(alloc: Global, place: &mut StorePlace, hand: Hand) -> Result<Handed, CallRefusal>
    ensures { HandsRights place.old place.new hand (λ told. result ≡ told) }
{
    let Some(mut opened) = place.take(alloc) else {
        return Err(CallRefusal::NotOpen);
    };
    let handed = opened.store.hand(hand);
    place.put(opened);
    Ok(handed?)
}

/// Reports which rights were removed after they were handed on, or why a command was denied. Returns the status.
pub fn tell_handed(
    answer: Result<Handed, CallRefusal>,
    removed: &mut u64,
    denial: &mut DenialOut,
) -> u32
    ensures { TellsHanded result (hand_out removed.old denial.old) (hand_out removed.new denial.new) answer }
{
    match &answer {
        Ok(Handed::Done { removed: back }) => {
            *removed = rights_out(*back);
            DONE
        }
        Ok(Handed::Denied { denial: why, .. }) => {
            *denial = denial_out(why);
            DENIED
        }
        Err(refusal) => refusal.status(),
    }
}
