//! The word of a place.
ghost use Rattle.std.specs.Prelude.{◌≡◌};
ghost use Rattle.tg_word.specs.Word.{IsPlace, link_to};

use tg_rights::Rights;
use tg_word::{Place, Slot, pack};

/// The link to a place.
#[inline(always)]
pub fn word_to(place: Place) -> u64
    requires { IsPlace place }
    ensures { result ≡ link_to place }
{
    pack(Slot::To {
        rights: Rights::empty(),
        place,
    })
}
