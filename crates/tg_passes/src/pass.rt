//! What the lock's side, each session and the keeper know of the journal. It is tokens of no bytes.
ghost use Rattle.std.specs.Prelude.{◌≡◌, ◌≤◌, ◌+◌, ◌++◌, ◌∷◌, []};
ghost use Rattle.tg_passes.specs.declared.signed.Maker.TheVariants.{Session, Keeper};
ghost use Rattle.tg_passes.specs.Passes.{AreOwn, MayMake, Sees, fresh_pass, looked, noted, sign};

use crate::board::Board;
use crate::signed::{Maker, Signed};
use atomic_table::{Badge, Join, Play, Seat, Split, Table, TableRule};
use std::alloc::{AllocError, Global};
use std::collections::LinkedList;
use std::marker::{Model, PhantomData};
use std::mem;
use tg_journal::Entry;

/// What a seat knows. The seat of the roll keeps (`keeps`). It knows all entries since the start, and a bound of the
/// names of the workers that have sessions. The seat of a pass acts (`acts`) for a maker. It knows all entries of this
/// maker, and has seen a front of all entries in which they are. A seat is both while it looks or notes. No value of it
/// is made.
pub struct View {
    pub keeps: bool,
    pub all: LinkedList<Signed>,
    pub below: u64,
    pub acts: bool,
    pub maker: Maker,
    pub made: LinkedList<Entry>,
    pub seen: LinkedList<Signed>,
}

/// The rule over all seats of a round.
pub struct Rolls;

impl TableRule<Entry, View, ()> for Rolls {
    ghost use Rattle.tg_passes.specs.Passes.{Kept, first_view};

    ghost holds = { λ _ s. Kept s.views };

    ghost first = { λ _. first_view };
}

/// The seat of a pass is joined to the seat of the roll, and split off again.
pub struct Meeting;

impl Join<View> for Meeting {
    ghost use Rattle.tg_passes.specs.Passes.{no_view, together};

    ghost both = { together };

    ghost spent = { no_view };
}

impl Split<View> for Meeting {
    ghost use Rattle.tg_passes.specs.Passes.{pass_part, roll_part};

    ghost left = { roll_part };

    ghost right = { pass_part };
}

/// The maker of the seat looks at all entries, and has then seen them.
pub struct Looks;

impl Play<Entry, View> for Looks {
    ghost use Rattle.tg_passes.specs.Passes.{Looked};

    ghost then = { Looked };
}

/// The maker of the seat made the entry that is said.
pub struct Notes;

impl Play<Entry, View> for Notes {
    ghost use Rattle.tg_passes.specs.Passes.{Noted};

    ghost then = { Noted };
}

/// The seat acts for the session of the worker with the name that is given.
pub struct Issues;

impl Play<Entry, View> for Issues {
    ghost use Rattle.tg_passes.specs.Passes.{Issued};

    ghost then = { Issued };
}

/// The seat of a session or of the keeper, for one round. Contracts see a `PassState`.
#[derive(Drop)]
pub struct Pass<L: Board> {
    badge: Badge<View>,
    of: PhantomData<L>,
}

impl<L: Board> Model for Pass<L> {
    ghost use Rattle.std.specs.Prelude.{◌≡◌, [], ◌∷◌};
    ghost use Rattle.tg_passes.specs.Passes.{PassState, pass_of, pass_view};

    ghost Value = { PassState };

    ghost view = { λ p. pass_of p.badge.views };

    ghost invariant = { λ p. (p.badge.table_id ≡ L.board) × (p.badge.views ≡ pass_view (pass_of p.badge.views) ∷ []) };
}

/// The table of a round, with the seat of the roll. Contracts see a `RollState`. It has all entries since the start
/// with who made them, and a bound of the names of the workers that have sessions.
pub struct Roll<L: Board> {
    table: Table<Entry, View, (), Rolls, Global>,
    seat: Seat<Entry, View>,
    of: PhantomData<L>,
}

// It is written out, so that a crate that drops a roll doesn't prove again how each part is dropped.
impl<L: Board> Drop for Roll<L> {
    fn drop(self) {
        let Self {
            table: _table,
            seat: _seat,
            of: _,
        } = self;
    }
}

impl<L: Board> Model for Roll<L> {
    ghost use Rattle.std.specs.Prelude.{◌≡◌, []};
    ghost use Rattle.tg_passes.specs.Passes.{RollState, roll_of, roll_view};

    ghost Value = { RollState };

    ghost view = { λ r. roll_of r.seat.me.0 };

    ghost invariant = { λ r. (r.table.shared.table_id ≡ L.board) × (r.table.shared.table_id.words ≡ 1) × (r.seat.table_id ≡ L.board) × (r.seat.me ≡ (roll_view r.seat.me.0.all r.seat.me.0.below, [])) };
}

/// The table of a round that no type represents yet, with its first seat.
#[derive(Drop)]
pub struct BlankRoll {
    table: Table<Entry, View, (), Rolls, Global>,
    seat: Seat<Entry, View>,
}

impl Model for BlankRoll {
    ghost use Rattle.std.specs.Prelude.{◌≡◌, []};
    ghost use Rattle.atomic_table.specs.Seated.{TableId};
    ghost use Rattle.tg_passes.specs.Passes.{first_view};

    ghost Value = { TableId };

    ghost view = { λ r. r.table.shared.table_id };

    ghost invariant = { λ r. (r.table.shared.table_id.words ≡ 1) × (r.seat.table_id ≡ r.table.shared.table_id) × (r.seat.me ≡ (first_view, [])) };
}

impl BlankRoll {
    /// The table of a new round. Fails only when out of memory.
    pub fn new(alloc: Global) -> Result<BlankRoll, AllocError> {
        let (table, seat) = Table::of_words(alloc, &[0], &())?;
        Ok(BlankRoll { table, seat })
    }

    /// The roll of the round that has this table, and the one pass of its keeper. Nobody has made an entry.
    pub fn open<L: Board>(self) -> (Roll<L>, Pass<L>)
        requires { self ≡ L.board }
        ensures roll { (result.0.signed ≡ []) × (result.0.below ≡ 0) }
        ensures keeper { result.1 ≡ fresh_pass Keeper [] }
    {
        let BlankRoll { table, mut seat } = self;
        let shared = &table.shared;
        let keeper = shared.split_seat::<Meeting>(&mut seat);
        let pass = Pass {
            badge: keeper.into_badge(),
            of: PhantomData,
        };
        let roll = Roll {
            table,
            seat,
            of: PhantomData,
        };
        (roll, pass)
    }
}

impl<L: Board> Roll<L> {
    /// Looks at all entries since the start with a pass, which has then seen them all. The roll stays as it is. The
    /// pass knew what `Sees` says. Its maker's entries are exactly the entries that were made with it, and it had seen
    /// a front of all entries.
    pub fn look(&mut self, pass: &mut Pass<L>)
        ensures same { self.new ≡ self.old }
        ensures sees { Sees self.old.signed pass.old }
        ensures pass { pass.new ≡ looked pass.old self.old.signed }
        ensures owned { AreOwn self.old.signed }
    {
        let other = mem::replace(&mut pass.badge, Badge::blank()).into_seat();
        let Roll { table, seat, of: _ } = self;
        let shared = &table.shared;
        shared.join_seat::<Meeting>(seat, other);
        shared.load::<Looks>(seat, 0);
        let back = shared.split_seat::<Meeting>(seat);
        pass.badge = back.into_badge();
    }

    /// Notes an entry that was made with a pass, after all others. The pass has then seen all entries. A session notes
    /// entries of its own worker, and the keeper those of any worker.
    pub fn note(&mut self, pass: &mut Pass<L>, entry: &Entry)
        requires { MayMake pass.old.maker entry.now }
        ensures signed { self.new.signed ≡ self.old.signed ++ sign pass.old.maker entry.now ∷ [] }
        ensures below { self.new.below ≡ self.old.below }
        ensures sees { Sees self.old.signed pass.old }
        ensures pass { pass.new ≡ noted pass.old self.old.signed entry.now }
        ensures owned { AreOwn self.old.signed }
    {
        let other = mem::replace(&mut pass.badge, Badge::blank()).into_seat();
        let Roll { table, seat, of: _ } = self;
        let shared = &table.shared;
        shared.join_seat::<Meeting>(seat, other);
        shared.compare_exchange_with::<Notes>(seat, 0, 0, 0, entry);
        let back = shared.split_seat::<Meeting>(seat);
        pass.badge = back.into_badge();
    }

    /// A pass for the session of a worker that has none. No entry was made with it, and it has seen all entries. The
    /// name has to be one that no session before it had, so it is at or after the bound.
    pub fn issue(&mut self, worker: u64) -> Pass<L>
        requires { self.old.below ≤ worker }
        ensures signed { self.new.signed ≡ self.old.signed }
        ensures below { self.new.below ≡ worker + 1 }
        ensures pass { result ≡ fresh_pass (Session worker) self.old.signed }
    {
        let Roll { table, seat, of: _ } = self;
        let shared = &table.shared;
        shared.compare_exchange::<Issues>(seat, 0, worker, worker);
        let own = shared.split_seat::<Meeting>(seat);
        Pass {
            badge: own.into_badge(),
            of: PhantomData,
        }
    }
}
