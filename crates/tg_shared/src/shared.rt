//! The store in its lock, from sharing it to closing it.
ghost use Rattle.std.specs.Prelude.{◌≡◌, ◌≤◌, ◌+◌, List, [], false, IfOk, IfErr, length};
ghost use Rattle.std.specs.List.{All};
ghost use Rattle.std.specs.List.Sorted.{IsPermutation};
ghost use Rattle.tg_passes.specs.declared.signed.Signed.{Signed};
ghost use Rattle.tg_passes.specs.Passes.{Sees};
ghost use Rattle.tg_shared.specs.Closing.{ClosesAll, IsGivenBack, IsSignedBy, MismatchAtSome};
ghost use Rattle.tg_shared.specs.Sessions.{AreFresh, AreSharedOut, CountsAll, HasAll, HasAllUnlessEnded, HoldsWhenFree, SharesOut, count_of, handed_of, keeper_knowledge, parts_of, sessions_made, since};

use crate::closing::{CloseFault, LockedRefused};
use crate::keeper::Keeper;
use crate::locked::Locked;
use crate::round::{Blanks, Round};
use crate::session::Session;
use std::alloc::Global;
use std::hint::spin_loop;
use std::sync::{Mutex, MutexGuard, Wait};
use tg_payload::Payload;
use tg_store::Store;

// How often a call tries the lock before it waits for it. Between two tries are `PAUSES` pauses, which makes at most
// 16,000 pauses. They take less than a millisecond. A command holds the lock for less than a microsecond. So a try
// mostly succeeds, and no thread goes to sleep. While the lock is held for long, a thread that waits for it sleeps.
const TRIES: u32 = 2_000;

const PAUSES: u32 = 8;

/// A store in a lock, which many threads use through their sessions.
pub struct SharedStore<L: Round, P: Payload> {
    pub(crate) locked: Mutex<Locked<L, P>>,
}

// It is written out, so that a crate that drops a shared store doesn't prove again how each part is dropped.
impl<L: Round, P: Payload> Drop for SharedStore<L, P> {
    fn drop(self) {
        let Self { locked: _locked } = self;
    }
}

/// A shared store with its sessions, one for each active subject, by rising name, and with its one keeper.
#[derive(Drop)]
pub struct Shared<L: Round, P: Payload> {
    pub store: SharedStore<L, P>,
    pub sessions: Vec<Session<L>>,
    pub keeper: Keeper<L>,
}

/// There was no memory for the sessions. The store comes back as it was, and the blank is spent.
#[derive(Drop)]
pub struct SharedRefused<P: Payload> {
    pub store: Store<P>,
}

/// A round did not end. The values that were handed in come back.
#[derive(Drop)]
pub struct CloseRefused<L: Round, P: Payload> {
    pub store: SharedStore<L, P>,
    pub sessions: Vec<Session<L>>,
    pub why: CloseFault,
}

impl<L: Round, P: Payload> SharedStore<L, P> {
    ghost use Rattle.tg_model.specs.Graph.{ProtectionGraph};
    ghost use Rattle.tg_store.specs.Store.{StandsFor};
    ghost use Rattle.tg_shared.specs.Sessions.{MayShare};

    /// Shares a store. Puts it into a lock, and makes a session for each active subject of its graph. The blanks are
    /// spent. The blank of the sessions has to have one part more than vertices may be made. Fails only when out of
    /// memory.
    ///
    /// The round's start says whether the journal stays whole (`start_of_store`), or may be handed out in parts while
    /// it is shared (`start_in_parts`). It also says whether the keeper may end workers and withdraw their
    /// rights (`start_with_ends`, `start_in_parts_with_ends`). The keeper's first part of the journal begins where the
    /// store's journal begins, and it has made no entry.
    pub fn new(
        alloc: Global,
        blanks: Blanks,
        store: Store<P>,
    ) -> Result<Shared<L, P>, SharedRefused<P>>
        requires shareable { MayShare L.name L.parts L.keeper L.start blanks store }
        ensures sessions { (g : ProtectionGraph) → StandsFor store g → IfOk result (λ shared. AreFresh g.subjects shared.sessions.items) }
        ensures keeper { IfOk result (λ shared. shared.keeper ≡ record { next = store.handed; made = []; seen = [] }) }
        ensures handed_back { IfErr result (λ refused. refused.store ≡ store) }
    {
        match Locked::open(alloc, blanks, store) {
            Ok((locked, sessions, keeper)) => Ok(Shared {
                store: SharedStore {
                    locked: Mutex::new(locked),
                },
                sessions,
                keeper,
            }),
            Err(store) => Err(SharedRefused { store }),
        }
    }

    // Takes the lock, which each call of a session or of the keeper does. The lock is tried for a while before the
    // thread sleeps.
    pub(crate) fn lock<R: Wait>(&self, rt: &R) -> MutexGuard<'_, Locked<L, P>> {
        for _ in 0..TRIES {
            if let Some(locked) = self.locked.try_lock() {
                return locked;
            }
            pause();
        }
        self.locked.lock(rt)
    }

    /// Returns the locked value, for a caller who needs to name it. [`Locked::close`] then says exactly whether the
    /// round ends. The facts that hold whenever the lock is free hold of it (`held`), as of [`Locked::store`]. Takes no
    /// memory, and waits for no lock.
    pub fn into_locked(self) -> Locked<L, P>
        ensures held { HoldsWhenFree L.start result }
    {
        let SharedStore { locked } = self;
        let locked = locked.into_inner();
        // This call shows what holds of all that is in a lock.
        let _ = locked.store();
        locked
    }

    /// Returns the locked value, as [`into_locked`](SharedStore::into_locked) does, for a caller that still has the
    /// keeper. The entries that the lock has counted as the keeper's are exactly the entries that the keeper made
    /// (`sees`). The store holds its entries from the place at which the keeper's last part ended. The keeper has then
    /// seen all entries, and is otherwise as it was.
    pub fn into_locked_with(self, keeper: &mut Keeper<L>) -> Locked<L, P>
        ensures held { HoldsWhenFree L.start result }
        ensures entered { result.entered ≡ length keeper.old.made }
        ensures sees { Sees result.signed (keeper_knowledge keeper.old) }
        ensures held_from { result.store.handed ≡ keeper.old.next }
        ensures keeper { keeper.new ≡ record keeper.old { seen = result.signed } }
    {
        let mut locked = self.into_locked();
        locked.tell(keeper);
        locked
    }
}

/// Ends a round. It hands out the store if all sessions are given back and their receipts are right. The store's
/// journal has then grown by as many entries as there are receipts. Each entry since the store was shared is in exactly
/// one receipt. The receipts of each session are all its entries, in their order. The store is the store that was
/// shared, with its opening, its limits and its earlier entries. The call is [`SharedStore::into_locked`] and
/// [`Locked::close`] in a row.
///
/// `SessionsMissing` is looked for first. It means that more sessions were made than the given sessions count for, by a
/// journal that may have been in the lock. Fewer sessions than there were subjects when the store was shared are always
/// refused so. If a round ends, the sessions count for exactly as many as its journal says. The journal has one for
/// each subject of the start, and one for each subject that was made since.
///
/// `ReceiptMismatch` is returned only if the sessions may not close with some journal that may have been in the lock.
/// That journal has grown by at least as many entries as the sessions have receipts. A caller who needs to know of the
/// very journal makes the two calls. Store and sessions then come back, and the sessions may be in another order. For n
/// sessions the call takes time as n log n. It takes no memory, and waits for no lock.
///
/// In a store that was shared whole no session can hand out a receipt. Then each entry made since is in exactly one
/// receipt (`whole` of `shared_out`), on the one condition that the keeper may end no worker.
///
/// If the keeper may end workers, the journal may have grown by more entries than there are receipts, because the
/// keeper made entries for them. [`close_with`] says how many entries the keeper made.
///
/// If the keeper may end nobody, `single` speaks of each single session. Suppose that a session handed out no receipt
/// and took over nobody. Then it has receipts of all entries of its worker since the store was shared, whatever the
/// other sessions did.
///
/// In every round `signed` says who made each entry since the store was shared. Each session made exactly its own of
/// these entries, and they begin with the entries that the session has seen. So an answer to a session is of the graph
/// after these first entries of the journal. The law is
/// [`an_answer_is_of_the_closed_journal`](crate::laws::an_answer_is_of_the_closed_journal).
pub fn close<L: Round, P: Payload>(
    store: SharedStore<L, P>,
    sessions: Vec<Session<L>>,
) -> Result<Store<P>, CloseRefused<L, P>>
    ensures back { IfOk result (IsGivenBack L.start sessions.items) }
    ensures count { L.start.may_end ≡ false → IfOk result (CountsAll L.start sessions.items) }
    ensures shared_out { L.start.may_end ≡ false → IfOk result (λ store. SharesOut L.start store sessions.items) }
    ensures single { L.start.may_end ≡ false → IfOk result (λ store. All (HasAll (since L.start store)) sessions.items) }
    ensures signed { IfOk result (λ store. (signed : List Signed) × IsSignedBy L.start store sessions.items signed) }
    ensures closes { ClosesAll L.start (length L.start.entries) sessions.items result }
{
    let locked = store.into_locked();
    match locked.close(sessions) {
        Ok(store) => Ok(store),
        Err(refused) => Err(back_behind_its_lock(refused)),
    }
}

/// Ends a round as [`close`] does, for a caller that still has the keeper. It says exactly which entries each session
/// and the keeper made, also if workers were ended or rights withdrawn. This call is [`SharedStore::into_locked_with`]
/// and [`Locked::close`] in a row.
///
/// The journal has grown by as many entries as the keeper made for workers, and as there are receipts. Of
/// the entries since the store was shared the keeper made exactly its own, and each session exactly its own. All begin
/// with the entries that each has seen (`signed`).
///
/// Suppose that the keeper made no entry for the worker of a session, and that the session handed out no receipt and
/// took over nobody. Then it has receipts of all entries of its worker (`single`). Suppose that a store was shared
/// whole, and that the keeper made no entry. Then each entry made since is in exactly one receipt, and the receipts of
/// each session are all its entries (`whole`). The store holds its entries from the place at which the keeper's last
/// part ended. The keeper has then seen all entries, and is otherwise as it was. The refusals are the refusals of
/// [`close`].
pub fn close_with<L: Round, P: Payload>(
    store: SharedStore<L, P>,
    sessions: Vec<Session<L>>,
    keeper: &mut Keeper<L>,
) -> Result<Store<P>, CloseRefused<L, P>>
    ensures back { IfOk result (IsGivenBack L.start sessions.items) }
    ensures count { IfOk result (λ store. length store.entries ≡ length L.start.entries + length keeper.old.made + handed_of sessions.items + count_of sessions.items) }
    ensures whole { L.start.in_parts ≡ false → keeper.old.made ≡ [] → IfOk result (λ store. AreSharedOut (since L.start store) sessions.items) }
    ensures held_from { IfOk result (λ store. store.handed ≡ keeper.old.next) }
    ensures none_ended { L.start.may_end ≡ false → keeper.old.made ≡ [] }
    ensures single { IfOk result (λ store. All (HasAllUnlessEnded keeper.old.made (since L.start store)) sessions.items) }
    ensures signed { IfOk result (λ store. IsSignedBy L.start store sessions.items keeper.new.seen × Sees keeper.new.seen (keeper_knowledge keeper.old)) }
    ensures closes { ClosesAll L.start (length L.start.entries + length keeper.old.made) sessions.items result }
    ensures keeper { keeper.new ≡ record keeper.old { seen = keeper.new.seen } }
{
    let locked = store.into_locked_with(keeper);
    match locked.close(sessions) {
        Ok(store) => Ok(store),
        Err(refused) => Err(back_behind_its_lock(refused)),
    }
}

/// Takes a store back whose sessions may be lost, if the receipts of the returned sessions are right. Each receipt
/// matches the journal, and no two sessions are of one worker. The journal has then grown by at least as many entries
/// as the returned sessions have receipts (`back`). It has grown by exactly as many if no session is missing and the
/// keeper made no entry. The call is [`SharedStore::into_locked`] and [`Locked::reclaim`] in a row. The store comes
/// from the shared store, with all its entries.
///
/// `ReceiptMismatch` is the only refusal. It is returned only if the sessions may not close with some journal that may
/// have been in the lock, as [`close`] does. Store and sessions then come back, and the sessions may be in another
/// order. A lost session can't act any more, because it needs the shared store, which is gone. Takes no memory, and
/// waits for no lock.
pub fn reclaim<L: Round, P: Payload>(
    store: SharedStore<L, P>,
    sessions: Vec<Session<L>>,
) -> Result<Store<P>, CloseRefused<L, P>>
    ensures back { IfOk result (IsGivenBack L.start sessions.items) }
    ensures within { IfOk result (λ store. parts_of sessions.items ≤ sessions_made L.start store.entries) }
    ensures count { L.start.may_end ≡ false → IfOk result (λ store. parts_of sessions.items ≡ sessions_made L.start store.entries → CountsAll L.start sessions.items store) }
    ensures single { L.start.may_end ≡ false → IfOk result (λ store. All (HasAll (since L.start store)) sessions.items) }
    ensures signed { IfOk result (λ store. (signed : List Signed) × IsSignedBy L.start store sessions.items signed) }
    ensures mismatch { IfErr result (λ refused. (refused.why ≡ CloseFault.ReceiptMismatch) × MismatchAtSome L.start (length L.start.entries) sessions.items) }
    ensures handed_back { IfErr result (λ refused. IsPermutation sessions.items refused.sessions.items) }
{
    let locked = store.into_locked();
    match locked.reclaim(sessions) {
        Ok(store) => Ok(store),
        Err(refused) => Err(back_behind_its_lock(refused)),
    }
}

// Lets the processor pause between two tries of the lock.
fn pause() {
    for _ in 0..PAUSES {
        spin_loop();
    }
}

// The refused store and sessions, with the store in its lock again.
fn back_behind_its_lock<L: Round, P: Payload>(refused: LockedRefused<L, P>) -> CloseRefused<L, P>
    ensures { (result.sessions.items ≡ refused.sessions.items) × (result.why ≡ refused.why) }
{
    let LockedRefused {
        locked,
        sessions,
        why,
    } = refused;
    CloseRefused {
        store: SharedStore {
            locked: Mutex::new(locked),
        },
        sessions,
        why,
    }
}
