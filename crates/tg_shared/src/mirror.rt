//! A number that is known in two places, in the lock and to the keeper.
ghost use Rattle.std.specs.Prelude.{◌≡◌, ◌<◌, ◌+◌, ◌^◌};

use std::marker::Model;
use std::sync::ledger::{Blank, Book, Ledger, Share};

/// A locked number, which has one mirror outside. The two are always the same, because each has one of the two parts of
/// a ledger whose total is the number. So the number can only change together with its mirror. Contracts see the
/// number.
#[derive(Drop)]
pub(crate) struct Mirrored<K: Ledger> {
    number: u64,
    book: Book<K>,
    rest: Share<K>,
}

impl<K: Ledger> Model for Mirrored<K> {
    ghost use Rattle.std.specs.Prelude.{◌≡◌, ℕ};

    ghost Value = { ℕ };

    ghost view = { λ m. m.number };

    ghost invariant = { λ m. (m.book.total ≡ m.number) × (m.rest.parts ≡ 1) × (m.rest.amount ≡ 0) × (K.parts ≡ 2) };
}

/// The mirror of a locked number. Contracts see the number.
#[derive(Drop)]
pub(crate) struct Mirror<K: Ledger> {
    number: u64,
    share: Share<K>,
}

impl<K: Ledger> Model for Mirror<K> {
    ghost use Rattle.std.specs.Prelude.{◌≡◌, ℕ};

    ghost Value = { ℕ };

    ghost view = { λ m. m.number };

    ghost invariant = { λ m. (m.share.amount ≡ m.number) × (m.share.parts ≡ 1) };
}

impl<K: Ledger> Mirror<K> {
    /// The number.
    pub(crate) fn number(&self) -> u64
        ensures { result ≡ self.now }
    {
        self.number
    }
}

impl<K: Ledger> Mirrored<K> {
    /// A number with its mirror. The blank is spent, and has two parts.
    pub(crate) fn new(blank: Blank, number: u64) -> (Mirrored<K>, Mirror<K>)
        requires name { blank.name ≡ K.name }
        requires parts { (blank.parts ≡ K.parts) × (K.parts ≡ 2) }
        ensures { (result.0 ≡ number) × (result.1 ≡ number) }
    {
        let (mut book, mut rest) = blank.open::<K>();
        let mut share = rest.split_off(1, 0);
        book.add(&mut share, number);
        (Mirrored { number, book, rest }, Mirror { number, share })
    }

    /// The number.
    pub(crate) fn number(&self) -> u64
        ensures { result ≡ self.now }
    {
        self.number
    }

    /// Changes nothing, and shows that the mirror has the number.
    pub(crate) fn tell(&mut self, mirror: &mut Mirror<K>)
        ensures equal { mirror.old ≡ self.old }
        ensures same { self.new ≡ self.old }
        ensures same_mirror { mirror.new ≡ mirror.old }
    {
        let number = mirror.number;
        mirror.share.give(&mut self.rest, 1, number);
        self.book.audit(&mut self.rest);
        self.rest.give(&mut mirror.share, 1, number);
    }

    /// Adds to the number and to its mirror.
    pub(crate) fn raise(&mut self, mirror: &mut Mirror<K>, more: u64)
        requires { self.old + more < 2 ^ 64 }
        ensures equal { mirror.old ≡ self.old }
        ensures number { self.new ≡ self.old + more }
        ensures mirror { mirror.new ≡ mirror.old + more }
    {
        self.tell(mirror);
        self.book.add(&mut mirror.share, more);
        self.number += more;
        mirror.number += more;
    }
}
