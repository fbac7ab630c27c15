//! Names that aren't made yet.
ghost use Rattle.tg_could.specs.Later.{IsFirstLater};

/// The first name that isn't made yet and isn't `other`.
pub(crate) fn first_later(made: u64, other: u64, limit: u64) -> u64
    ensures { IsFirstLater made other limit result }
{
    if made == other && made < limit {
        made + 1
    } else {
        made
    }
}
