//! How a worker hands rights on from C.
ghost use Rattle.tg_c.specs.Handing.{HandsOfForm, TellsHanded, hand_out};

use std::alloc::Global;
use tg_c::forms::{DenialOut, HandIn, label_of};
use tg_c::handing::{hand_on, hand_with, tell_handed};
use tg_c::place::StorePlace;

/// The worker `via` takes rights over the target from `from`, and grants them to `to`. Then it removes the rights among
/// them that it didn't hold before. This is done completely, with an entry for each command, or left undone. The
/// removed rights go to `removed` as bits. If they are 0, there is no remove. If the take or the grant is denied, its
/// entry is the only entry. The rule of the denial says which command was denied.
#[unsafe(no_mangle)]
pub extern "C" fn tg_hand(
    alloc: Global,
    store: &mut StorePlace,
    hand: &HandIn,
    removed: &mut u64,
    denial: &mut DenialOut,
) -> u32
    ensures handed { HandsOfForm store.old store.new hand.now (TellsHanded result
        (hand_out removed.old denial.old) (hand_out removed.new denial.new)) }
{
    match label_of(hand.rights) {
        Ok(rights) => {
            let handed = hand_on(alloc, store, hand_with(hand, rights));
            tell_handed(handed, removed, denial)
        }
        Err(refusal) => refusal.status(),
    }
}
