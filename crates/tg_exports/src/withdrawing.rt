//! How rights over a vertex are withdrawn from C.
ghost use Rattle.tg_c.specs.Statuses.{TellsNames, names_out};
ghost use Rattle.tg_c.specs.Withdrawals.{WithdrawsBits};

use std::alloc::Global;
use tg_c::forms::label_of;
use tg_c::place::StorePlace;
use tg_c::tell::tell_number;
use tg_c::withdrawing::{RightsOver, withdraw};

/// Each worker with a name outside of `keep` removes what it holds of the rights over the target, by rising name. Each
/// remove has an entry. The names of those who still hold some of the rights go to `names`, by rising name, as many as
/// there is room for. They are kept workers, objects or workers that retired, of all that the workers then reach. Their
/// number goes to `count`.
#[unsafe(no_mangle)]
pub extern "C" fn tg_withdraw(
    alloc: Global,
    store: &mut StorePlace,
    target: u64,
    rights: u64,
    keep: &[u64],
    names: &mut [u64],
    count: &mut u64,
) -> u32
    ensures { WithdrawsBits store.old store.new target rights keep.now (TellsNames result
        (names_out count.old names.old)
        (names_out count.new names.new)) }
{
    match label_of(rights) {
        Ok(rights) => {
            let over = RightsOver { target, rights };
            tell_number(withdraw(alloc, store, over, keep, names), count)
        }
        Err(refusal) => refusal.status(),
    }
}
