//! Conditions of two or three facts. Each is a function, so that a proof looks at one branch in the place of several.
ghost use Rattle.std.specs.Prelude.{◌≡◌, ◌≢◌, false, IsTrue};

/// Whether the third holds if the first two do.
pub(crate) fn both_imply(one: bool, two: bool, third: bool) -> bool
    ensures { IsTrue result → IsTrue one → IsTrue two → IsTrue third }
{
    !one || !two || third
}

/// Whether the first two hold and the third doesn't.
pub(crate) fn both_but_not(one: bool, two: bool, third: bool) -> bool
    ensures yes { IsTrue result → IsTrue one × IsTrue two × (third ≡ false) }
    ensures no { result ≡ false → IsTrue one → IsTrue two → IsTrue third }
{
    one && two && !third
}

/// Whether one of the three doesn't hold.
pub(crate) fn not_all(one: bool, two: bool, third: bool) -> bool
    ensures not_all { IsTrue result → IsTrue one → IsTrue two → ¬ IsTrue third }
    ensures all { result ≡ false → IsTrue one × IsTrue two × IsTrue third }
{
    !one || !two || !third
}

/// Whether all three hold.
pub(crate) fn all_hold(one: bool, two: bool, third: bool) -> bool
    ensures { IsTrue result → IsTrue one × IsTrue two × IsTrue third }
{
    one && two && third
}

/// Whether no two of the three numbers are the same.
pub(crate) fn all_differ(x: u64, y: u64, z: u64) -> bool
    ensures { IsTrue result → (x ≢ y) × (y ≢ z) × (x ≢ z) }
{
    x != y && y != z && x != z
}

/// Whether the first two numbers are the same, and the other two are.
pub(crate) fn pairs_match(one: u64, same: u64, two: u64, alike: u64) -> bool
    ensures { IsTrue result → (one ≡ same) × (two ≡ alike) }
{
    one == same && two == alike
}
