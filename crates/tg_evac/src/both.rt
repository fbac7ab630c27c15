//! One value for Old and one for Aged.
ghost use Rattle.std.specs.Prelude.{◌≡◌, true, false};
ghost use Rattle.std.specs.Borrow.{sem};
ghost use Rattle.tg_evac.specs.Lending.{LendsOne};

/// One value for Old and one for Aged. One of them is lent out, so that what is done with it is compiled once.
#[derive(Drop)]
pub struct Both<'a, T> {
    /// That for Old.
    pub old: &'a mut T,
    /// That for Aged.
    pub aged: &'a mut T,
}

impl<'a, T> Both<'a, T> {
    /// The one for Old, or the one for Aged.
    #[inline(always)]
    pub fn one(&mut self, is_in_old: bool) -> &mut T
        ensures* writes_back { sem 𝓛 (LendsOne T.row self.entry is_in_old result) }
        ensures old { is_in_old ≡ true → result.now ≡ self.entry.now.old.now }
        ensures aged { is_in_old ≡ false → result.now ≡ self.entry.now.aged.now }
    {
        if is_in_old {
            &mut *self.old
        } else {
            &mut *self.aged
        }
    }
}
