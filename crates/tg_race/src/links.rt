//! The word of a cell that has a place. It is a reference with no rights to that place.
ghost use Rattle.std.specs.Prelude.{◌≡◌};
ghost use Rattle.tg_word.specs.Word.{IsPlace};
ghost use Rattle.tg_race.specs.Words.{place_word, place_of as place_in_word};

use tg_rights::Rights;
use tg_word::{Place, Slot, pack, place_of};

// The word that a cell with this place has.
#[tactic(auto, unfolding(crate::specs::Words::place_word))]
#[inline(always)]
pub(crate) fn word_to(place: Place) -> u64
    requires { IsPlace place }
    ensures { result ≡ place_word place }
{
    pack(Slot::To {
        rights: Rights::empty(),
        place,
    })
}

// The place in the word of a cell that has one.
#[tactic(auto, unfolding(crate::specs::Words::place_of))]
#[inline(always)]
pub(crate) fn place_in(word: u64) -> Place
    ensures { result ≡ place_in_word word }
{
    place_of(word)
}
