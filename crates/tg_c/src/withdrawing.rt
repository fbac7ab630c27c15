//! How rights over a vertex are withdrawn from C.
ghost use Rattle.tg_c.specs.Calls.{IsShown};
ghost use Rattle.tg_c.specs.Withdrawals.{WithdrawsRights};

use crate::held::Holder;
use crate::place::StorePlace;
use crate::refusal::CallRefusal;
use crate::tell::put_numbers;
use std::alloc::Global;
use tg_rights::Label;

/// Rights over a target that are to be withdrawn.
#[derive(Clone, Copy, Debug)]
pub struct RightsOver {
    /// The vertex that the rights are over.
    pub target: u64,
    /// The rights.
    pub rights: Label,
}

/// Each worker of the store in the place outside of `keep` removes what it holds of rights over a target. Lists who
/// still holds some of them, as many names as there is room for. Returns how many there are.
pub fn withdraw(
    alloc: Global,
    place: &mut StorePlace,
    over: RightsOver,
    keep: &[u64],
    into: &mut [u64],
) -> Result<u64, CallRefusal>
    ensures { WithdrawsRights place.old place.new over.target over.rights keep.now (IsShown into.old into.new result) }
{
    let Some(mut opened) = place.take(alloc) else {
        return Err(CallRefusal::NotOpen);
    };
    let left = opened.store.withdraw(over.target, over.rights, keep);
    place.put(opened);
    let left = left?;
    let names = left.as_slice();
    put_numbers(names, into);
    Ok(names.len() as u64)
}
