//! The kinds of collections.
ghost use Rattle.std.specs.Prelude.{◌≡◌};
ghost use Rattle.tg_space.specs.Targets.{from_space};

use tg_word::OLD;

/// Which cells a collection moves, and where to.
#[derive(Clone, Copy, PartialEq, Eq, Debug)]
pub enum Kind {
    /// All cells, to Old.
    Full,
    /// The cells of the nurseries, to Aged or to Old, and those of Aged, to Old.
    Nursery,
}

impl Kind {
    /// Whether a collection moves the cells of a space. A full collection moves all cells, and a nursery collection all
    /// but those of Old.
    #[inline(always)]
    pub fn moves(self, space: u64) -> bool
        ensures { result ≡ from_space self space }
    {
        match self {
            Kind::Full => true,
            Kind::Nursery => space != OLD,
        }
    }
}
