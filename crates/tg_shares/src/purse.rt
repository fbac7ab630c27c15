//! Purses. They say how many vertices and entries their holders may still take.
ghost use Rattle.std.specs.Prelude.{◌≡◌, ◌≢◌, ◌↔◌, ◌<◌, ◌≤◌, ◌+◌, ◌^◌, Err, IfErr, IfOk, OnErr, OnOk};
ghost use Rattle.tg_shares.specs.declared.fault.Lack.{Lack as LackOf};
ghost use Rattle.tg_shares.specs.Shares.{CanPayForVertex, LacksToMake, Pays, entries_alone, one_entry, one_vertex};
ghost use Rattle.tg_shares.specs.Tills.{TakesIn};

use crate::fault::{Lack, ShareFault};
use std::marker::{Model, PhantomData};
use std::sync::ledger::{Blank, Ledger, Share};
use tg_shared::Round;
use tg_store::CreateFault;

/// So many vertices to be made, and so many entries of the journal.
#[derive(Clone, Copy, PartialEq, Eq, Debug)]
pub struct Portion {
    pub vertices: u64,
    pub entries: u64,
}

impl Portion {
    /// No vertex and no entry.
    pub fn none() -> Portion
        ensures { (result.vertices ≡ 0) × (result.entries ≡ 0) }
    {
        Portion {
            vertices: 0,
            entries: 0,
        }
    }
}

/// The blanks for sharing a store out. There is a blank for the vertices that may be made, and a blank for the entries
/// of the journal. Whoever shares a store out makes them, and says of which types they are.
#[derive(Drop)]
pub struct PurseBlanks {
    pub vertices: Blank,
    pub entries: Blank,
}

impl PurseBlanks {
    /// The blanks for so many vertices and entries.
    pub fn new(whole: Portion) -> PurseBlanks
        ensures vertices { result.vertices.parts ≡ whole.vertices }
        ensures entries { result.entries.parts ≡ whole.entries }
    {
        PurseBlanks {
            vertices: Blank::new(whole.vertices),
            entries: Blank::new(whole.entries),
        }
    }
}

/// The shares that its holder may still take of a store. They are so many vertices that may be made, and so many
/// entries. A purse isn't copied. It has no more the part that it gives to another purse. A purse that is dropped is
/// lost with its shares.
///
/// Contracts see the `Portion` that is in it.
#[derive(Drop)]
pub struct Purse<V: Ledger, E: Ledger> {
    vertices: u64,
    entries: u64,
    // As many parts of the first ledger as vertices, and of the second one as entries.
    vertex_parts: Share<V>,
    entry_parts: Share<E>,
}

impl<V: Ledger, E: Ledger> Model for Purse<V, E> {
    ghost use Rattle.std.specs.Prelude.{◌≡◌, ◌<◌, ◌^◌};
    ghost use Rattle.tg_shares.specs.declared.purse.Portion.{Portion};

    ghost Value = { Portion };

    ghost view = { λ p. record { vertices = p.vertices; entries = p.entries } };

    ghost invariant = { λ p. ((p.vertex_parts.parts ≡ p.vertices) × (p.vertex_parts.amount ≡ 0) × (V.parts < 2 ^ 64))
        × ((p.entry_parts.parts ≡ p.entries) × (p.entry_parts.amount ≡ 0) × (E.parts < 2 ^ 64)) };
}

impl<V: Ledger, E: Ledger> Purse<V, E> {
    /// How many vertices its holder may still make.
    pub fn vertices(&self) -> u64
        ensures { result ≡ self.now.vertices }
    {
        self.vertices
    }

    /// How many entries its holder may still make.
    pub fn entries(&self) -> u64
        ensures { result ≡ self.now.entries }
    {
        self.entries
    }

    /// Hands a part on, as a purse of its own. Refused, with the purse as it was, exactly if it has fewer vertices,
    /// which are looked at first, or fewer entries. Takes no memory.
    pub fn split_off(&mut self, part: Portion) -> Result<Purse<V, E>, Lack>
        ensures part { IfOk result (λ fresh. fresh ≡ part) }
        ensures left { OnOk result (Pays part self.old self.new) }
        ensures vertices { (result ≡ Err Lack.Vertices) ↔ (self.old.vertices < part.vertices) }
        ensures entries { (result ≡ Err Lack.Entries) ↔ ((part.vertices ≤ self.old.vertices) × (self.old.entries < part.entries)) }
        ensures refused { OnErr result (self.new ≡ self.old) }
    {
        if self.vertices < part.vertices {
            return Err(Lack::Vertices);
        }
        if self.entries < part.entries {
            return Err(Lack::Entries);
        }
        let vertex_parts = self.vertex_parts.split_off(part.vertices, 0);
        let entry_parts = self.entry_parts.split_off(part.entries, 0);
        self.vertices -= part.vertices;
        self.entries -= part.entries;
        Ok(Purse {
            vertices: part.vertices,
            entries: part.entries,
            vertex_parts,
            entry_parts,
        })
    }

    /// Takes what is in another purse of the same store. No purse ever has more than all had at first. Takes no memory.
    pub fn merge(&mut self, other: Purse<V, E>)
        ensures vertices { self.new.vertices ≡ self.old.vertices + other.vertices }
        ensures entries { self.new.entries ≡ self.old.entries + other.entries }
        ensures within { (self.new.vertices ≤ V.parts) × (self.new.entries ≤ E.parts) }
    {
        let Purse {
            vertices,
            entries,
            vertex_parts,
            entry_parts,
        } = other;
        self.vertex_parts.merge(vertex_parts);
        self.entry_parts.merge(entry_parts);
        self.vertices += vertices;
        self.entries += entries;
    }

    /// Whether its holder, a worker, may make a vertex, and hand a part on besides. Refused exactly if the purse has no
    /// vertex beside the part's, which is looked at first, or no entry beside the part's. A refusal names the worker.
    pub fn may_make(&self, worker: u64, part: Portion) -> Result<(), ShareFault>
        ensures may { OnOk result ((part.vertices < self.now.vertices) × (part.entries < self.now.entries)) }
        ensures named { IfErr result (λ why. why.worker ≡ worker) }
        ensures lacks { (lack : LackOf) → (result ≡ Err (record { worker = worker; lacks = lack })) ↔ LacksToMake part self.now lack }
    {
        if self.vertices <= part.vertices {
            return Err(ShareFault {
                worker,
                lacks: Lack::Vertices,
            });
        }
        if self.entries <= part.entries {
            return Err(ShareFault {
                worker,
                lacks: Lack::Entries,
            });
        }
        Ok(())
    }

    /// Whether its holder, a worker, may make an entry. Refused exactly if the purse has no entry. A refusal names the
    /// worker and the entries.
    pub fn may_enter(&self, worker: u64) -> Result<(), ShareFault>
        ensures may { OnOk result (0 < self.now.entries) }
        ensures named { IfErr result (λ why. why ≡ record { worker = worker; lacks = Lack.Entries }) }
        ensures lacks { (result ≡ Err (record { worker = worker; lacks = Lack.Entries })) ↔ (self.now.entries ≡ 0) }
    {
        if self.entries == 0 {
            return Err(ShareFault {
                worker,
                lacks: Lack::Entries,
            });
        }
        Ok(())
    }

    // Pays for a vertex that was made, and for its entry.
    pub(crate) fn pay_vertex<L: Round>(&mut self, till: &mut Till<L, V, E>)
        requires { CanPayForVertex self.old }
        ensures paid { Pays one_vertex self.old self.new }
        ensures till { TakesIn one_vertex till.old till.new }
    {
        self.vertex_parts.give(&mut till.made, 1, 0);
        self.entry_parts.give(&mut till.entered, 1, 0);
        self.vertices -= 1;
        self.entries -= 1;
    }

    // Pays for so many entries.
    pub(crate) fn pay_entries<L: Round>(&mut self, count: u64, till: &mut Till<L, V, E>)
        requires { count ≤ self.old.entries }
        ensures paid { Pays (entries_alone count) self.old self.new }
        ensures till { TakesIn (entries_alone count) till.old till.new }
    {
        self.entry_parts.give(&mut till.entered, count, 0);
        self.entries -= count;
    }

    // Pays for the entry of a spawn that is refused since too many subjects are active. Any other refusal costs
    // nothing.
    pub(crate) fn pay_refused_spawn<L: Round>(&mut self, why: CreateFault, till: &mut Till<L, V, E>)
        requires { 0 < self.old.entries }
        ensures crowded { why ≡ CreateFault.WorkersFull → Pays one_entry self.old self.new × TakesIn one_entry till.old till.new }
        ensures unpaid { why ≢ CreateFault.WorkersFull → (self.new ≡ self.old) × (till.new ≡ till.old) }
    {
        if why == CreateFault::WorkersFull {
            self.pay_entries(1, till);
        }
    }

    // Changes nothing, and shows that what is in the purse is left.
    pub(crate) fn tell<L: Round>(&mut self, till: &mut Till<L, V, E>)
        ensures same { self.new ≡ self.old }
        ensures till { till.new ≡ till.old }
        ensures left { self.old.vertices ≤ till.old.left.vertices }
    {
        self.vertex_parts.give(&mut till.made, 0, 0);
    }
}

/// The till into which purses pay. It has the parts of the two ledgers for vertices and entries that were made.
///
/// Contracts see the shares that are left in all purses, also in purses that were dropped. They see how many entries
/// there were before, and how many were given out then.
#[derive(Drop)]
pub struct Till<L: Round, V: Ledger, E: Ledger> {
    made: Share<V>,
    entered: Share<E>,
    round: PhantomData<L>,
}

impl<L: Round, V: Ledger, E: Ledger> Model for Till<L, V, E> {
    ghost use Rattle.std.specs.Prelude.{◌≤◌, ◌-◌, length};
    ghost use Rattle.tg_shares.specs.Tills.{TillState};

    ghost Value = { TillState };

    ghost view = { λ t. record { left = record { vertices = V.parts - t.made.parts; entries = E.parts - t.entered.parts }; before = length L.start.entries; given = E.parts } };

    ghost invariant = { λ t. (t.made.parts ≤ V.parts) × (t.entered.parts ≤ E.parts) };
}

impl<L: Round, V: Ledger, E: Ledger> Till<L, V, E> {
    ghost use Rattle.std.specs.Prelude.{◌≡◌, length};

    // An empty till, and the purse that has all of its vertices and entries.
    pub(crate) fn open(blanks: PurseBlanks, whole: Portion) -> (Till<L, V, E>, Purse<V, E>)
        requires vertices { (blanks.vertices.name ≡ V.name) × (blanks.vertices.parts ≡ V.parts) × (blanks.vertices.parts ≡ whole.vertices) }
        requires entries { (blanks.entries.name ≡ E.name) × (blanks.entries.parts ≡ E.parts) × (blanks.entries.parts ≡ whole.entries) }
        ensures till { result.0 ≡ record { left = whole; before = length L.start.entries; given = whole.entries } }
        ensures purse { result.1 ≡ whole }
    {
        let PurseBlanks { vertices, entries } = blanks;
        let (_, mut vertex_parts) = vertices.open::<V>();
        let (_, mut entry_parts) = entries.open::<E>();
        let till = Till {
            made: vertex_parts.empty(),
            entered: entry_parts.empty(),
            round: PhantomData,
        };
        let purse = Purse {
            vertices: whole.vertices,
            entries: whole.entries,
            vertex_parts,
            entry_parts,
        };
        (till, purse)
    }

    // Shows how many entries there were before, and how many were given out.
    pub(crate) fn tell(&self)
        ensures before { self.now.before ≡ length L.start.entries }
        ensures given { self.now.given ≡ E.parts }
    {
        let _ = &self.made;
    }
}
