//! What a walk over the cells asks of a table of claims.
ghost use Rattle.std.specs.Prelude.{◌≡◌, ℕ, ◌<◌, ◌≤◌, ◌==◌, length};
ghost use Rattle.tg_word.specs.declared.TheConstants.{MOST_SPACE_CELLS};
ghost use Rattle.tg_word.specs.declared.Place.{Place as PlaceOf};
ghost use Rattle.tg_word.specs.Word.{place_in};
ghost use Rattle.tg_evac.specs.Claims.{win_at, won_in};
ghost use Rattle.tg_evac.specs.Claimers.{Walked};
ghost use Rattle.tg_evac.specs.Walks.{ClaimsCell, MayClaim};

use tg_space::RoomFault;

/// A table in which cells are claimed, each for one new place.
///
/// One thread may have the table for itself, or several may share it. The walk over the cells is the same. It relies on
/// two facts. A cell that was claimed has a place, and a place never changes.
pub trait Claimer {
    /// What else no claim changes.
    ghost Fixed: { Type 0 };

    /// What was won, and what is known.
    ghost walked: { Self → Walked Fixed };

    /// The map from cells to places agrees with all that is known.
    ghost knows: { Self → (ℕ → PlaceOf) → Type 0 };

    /// What a refusal for lack of room implies.
    ghost is_full: { Self → Type 0 };

    /// How many cells were won. There are no more than there are cells, and no more than either space has room for.
    fn len(&self) -> usize
        ensures count { result ≡ length (walked self.now).won }
        ensures few { result ≤ (walked self.now).cells }
        ensures room { (space : ℕ) → space < 2 → length (won_in space (walked self.now).won) ≤ MOST_SPACE_CELLS };

    /// The cell that was won as the k-th.
    fn won_cell(&self, k: usize) -> u64
        requires { k < length (walked self.now).won }
        ensures cell { result ≡ (win_at (walked self.now).won k).cell }
        ensures inside { result < (walked self.now).cells };

    /// Whether the copy of the k-th cell that was won is in Old. Otherwise it is in Aged.
    fn is_won_in_old(&self, k: usize) -> bool
        requires { k < length (walked self.now).won }
        ensures space { result ≡ ((place_in (win_at (walked self.now).won k).word).space == 0) }
        ensures two { (place_in (win_at (walked self.now).won k).word).space < 2 };

    /// The word of the place of a cell. It is a new place in a space, unless the cell has a place.
    ///
    /// It may be refused with `OutOfMemory`, or with `HeapFull` where the space has no room.
    fn claim(&mut self, cell: u64, space: u64) -> Result<u64, RoomFault>
        requires { MayClaim (walked self.old) cell space }
        ensures { ClaimsCell walked knows is_full cell space self.old self.new result };
}
