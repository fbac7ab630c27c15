//! The end of a round.
ghost use Rattle.std.specs.Prelude.{◌≡◌, ◌↔◌, ◌<◌, ◌≤◌, ◌+◌, ◌-◌, false, IsTrue, IfErr, IsErr, IsErrAnd, OnErr, OnOk, length};
ghost use Rattle.std.specs.List.{All};
ghost use Rattle.std.specs.List.Sorted.{IsNonDecreasingBy};
ghost use Rattle.tg_shared.specs.Sessions.{AreApart, MatchesSince, MayClose, count_of};

use crate::locked::Locked;
use crate::receipt::{Receipt, receipts_match};
use crate::round::{Register, Round};
use crate::session::{Session, have_at_most, sort_by_worker, still_owed};
use tg_journal::Journal;
use tg_payload::Payload;
use tg_store::Store;
use thiserror::Error;

/// Why a round does not end. Nothing is changed by it.
#[derive(Clone, Copy, PartialEq, Eq, Debug, Error)]
pub enum CloseFault {
    /// There are fewer sessions than were made. A session that took others over counts for the others too.
    #[error("sessions are missing")]
    SessionsMissing,
    /// The receipts of a session differ from the journal. Or a receipt is of an entry that was made before the store
    /// was shared. Or two sessions are of one worker.
    #[error("receipts don't match the journal")]
    ReceiptMismatch,
}

/// A round that did not end. The locked value comes back with the sessions.
#[derive(Drop)]
pub struct LockedRefused<L: Round, P: Payload> {
    pub locked: Locked<L, P>,
    pub sessions: Vec<Session<L>>,
    pub why: CloseFault,
}

impl<L: Round, P: Payload> Locked<L, P> {
    ghost use Rattle.tg_shared.specs.Closing.{EndsRound};
    ghost use Rattle.tg_shared.specs.Sessions.{AddsUp, MayCloseWith, SharesOut, count_of, handed_of, parts_of};

    /// Ends a round. It hands out the store if all sessions are given back and their receipts are right. The journal
    /// has then grown by as many entries as there are receipts, and they are shared out among the sessions. The entries
    /// that the keeper made for workers are counted beside the receipts, and shared out to nobody. They are entries of
    /// ends, withdrawals, parkings and unparkings.
    ///
    /// `SessionsMissing` is looked for first. It is returned exactly if the sessions count for fewer than were made.
    /// `ReceiptMismatch` is returned exactly if they count for as many, and may not close. The store and the sessions
    /// then come back, and the sessions may be in another order. Takes no memory, and for n sessions time as n log n.
    ///
    /// In a store that was shared whole (`whole` of `shared_out`) no session has handed out a receipt. If the keeper
    /// made no entry, each entry made since is in exactly one receipt, and the receipts of each session are all its
    /// entries.
    ///
    /// `ends` says this of each single session for whose worker the keeper made no entry, whatever the other sessions
    /// did (`single`). A session that handed out no receipt and took over nobody has receipts of all entries of its
    /// worker since the store was shared.
    ///
    /// It also says who made each entry since the store was shared (`signed`). Each session made exactly its own, and
    /// the entries begin with the entries that the session has seen. So an answer to a session is an answer on the
    /// journal up to the entries that the session had seen.
    pub fn close(self, sessions: Vec<Session<L>>) -> Result<Store<P>, LockedRefused<L, P>>
        ensures ends { EndsRound L.start self sessions.items result }
        ensures all { OnOk result (parts_of sessions.items ≡ self.sessions) }
        ensures count { OnOk result (length self.store.entries ≡ length L.start.entries + self.entered + handed_of sessions.items + count_of sessions.items) }
        ensures shared_out { self.entered ≡ 0 → OnOk result (SharesOut L.start self.store sessions.items) }
        ensures missing { IsErrAnd result (λ refused. refused.why ≡ CloseFault.SessionsMissing) ↔ (parts_of sessions.items < self.sessions) }
        ensures mismatch { IsErrAnd result (λ refused. refused.why ≡ CloseFault.ReceiptMismatch) ↔
            ((self.sessions ≤ parts_of sessions.items) × (¬ MayCloseWith L.start self.store sessions.items)) }
        ensures counted { IfErr result (λ refused. refused.why ≡ CloseFault.ReceiptMismatch → length L.start.entries + self.entered + count_of sessions.items ≤ length self.store.entries) }
    {
        if still_owed(self.sessions, sessions.as_slice()) > 0 {
            return Err(LockedRefused {
                locked: self,
                sessions,
                why: CloseFault::SessionsMissing,
            });
        }
        self.reclaim(sessions)
    }

    /// Ends a round whose sessions may be lost. It hands out the store if the receipts of the returned sessions are
    /// right. The journal has then grown by at least as many entries as there are receipts, and entries of the keeper.
    /// If no session is missing, all holds that [`close`](Locked::close) says.
    ///
    /// `ReceiptMismatch` is the only refusal. It is returned exactly if the sessions that are there may not close. The
    /// store and the sessions then come back, with the sessions in the order of their workers' names. Takes no memory,
    /// and for n sessions time as n log n.
    pub fn reclaim(mut self, mut sessions: Vec<Session<L>>) -> Result<Store<P>, LockedRefused<L, P>>
        ensures ends { EndsRound L.start self sessions.items result }
        ensures adds_up { OnOk result (AddsUp (length L.start.entries) (length self.store.entries) self.sessions self.entered sessions.items) }
        ensures shared_out { self.entered ≡ 0 → OnOk result (parts_of sessions.items ≡ self.sessions → SharesOut L.start self.store sessions.items) }
        ensures mismatch { IsErr result ↔ (¬ MayCloseWith L.start self.store sessions.items) }
        ensures only { IfErr result (λ refused. refused.why ≡ CloseFault.ReceiptMismatch) }
        ensures counted { OnErr result (length L.start.entries + self.entered + count_of sessions.items ≤ length self.store.entries) }
    {
        sort_by_worker(&mut sessions);
        // This call shows that the keeper's entries were counted.
        self.register.book.audit(&mut self.rest);
        let journal = self.store.journal();
        let since = self.start.max(journal.start());
        let entries = entries_since(journal, self.start, self.entered);
        if are_refused(journal, since, entries, sessions.as_slice()) {
            return Err(LockedRefused {
                locked: self,
                sessions,
                why: CloseFault::ReceiptMismatch,
            });
        }
        let Locked {
            store,
            start: _,
            sessions: _,
            entered: _,
            handed: _,
            register,
            rest: mut whole,
        } = self;
        let Register { mut book, mut roll } = register;
        for session in sessions {
            session.give_up(&mut whole, &mut roll);
        }
        book.audit(&mut whole);
        Ok(store)
    }
}

// How many entries were made from a place on, but for so many.
fn entries_since(journal: &Journal, start: u64, but: u64) -> u64
    requires { start + but ≤ length journal.now.entries }
    ensures { result ≡ length journal.now.entries - start - but }
{
    journal.len() - start - but
}

// Whether the sessions, in the order of their workers' names, may not close. There are never more receipts than entries
// that were made since the start. The ledger shows this after its parts are together. Therefore the number of receipts
// isn't checked here.
fn are_refused<L: Round>(
    journal: &Journal,
    start: u64,
    entries: u64,
    sessions: &[Session<L>],
) -> bool
    requires held { journal.now.start ≤ start }
    requires rising { IsNonDecreasingBy (λ s. s.worker) sessions.now }
    ensures refused { IsTrue result → (¬ MayClose journal.now.entries start sessions.now) × (count_of sessions.now ≤ entries) }
    ensures closes { result ≡ false → count_of sessions.now ≤ entries → MayClose journal.now.entries start sessions.now }
{
    !may_close(journal, start, sessions) && have_at_most(entries, sessions)
}

// Whether the sessions, in the order of their workers' names, may close.
fn may_close<L: Round>(journal: &Journal, start: u64, sessions: &[Session<L>]) -> bool
    requires held { journal.now.start ≤ start }
    requires rising { IsNonDecreasingBy (λ s. s.worker) sessions.now }
    ensures { IsTrue result ↔ MayClose journal.now.entries start sessions.now }
{
    all_match(journal, start, sessions) && are_apart(sessions)
}

fn all_match<L: Round>(journal: &Journal, start: u64, sessions: &[Session<L>]) -> bool
    requires { journal.now.start ≤ start }
    ensures { IsTrue result ↔ All (MatchesSince journal.now.entries start) sessions.now }
{
    sessions
        .iter()
        .all(|session| matches_since(journal, start, session))
}

// Whether the session's receipts match the journal, and none is of an entry before the start.
#[tactic(auto, unfolding(crate::specs::Sessions::MatchesSince))]
fn matches_since<L: Round>(journal: &Journal, start: u64, session: &Session<L>) -> bool
    requires { journal.now.start ≤ start }
    ensures { IsTrue result ↔ MatchesSince journal.now.entries start session.now }
{
    receipts_match(journal, session.worker(), session.receipts())
        && are_since(start, session.receipts())
}

fn are_since(start: u64, receipts: &[Receipt]) -> bool
    ensures { IsTrue result ↔ All (λ r. start ≤ r.at) receipts.now }
{
    receipts.iter().all(|receipt| start <= receipt.at)
}

// Whether no two sessions are of one worker. The sessions are in the order of the names, so two sessions of one worker
// are neighbours.
fn are_apart<L: Round>(sessions: &[Session<L>]) -> bool
    requires rising { IsNonDecreasingBy (λ s. s.worker) sessions.now }
    ensures { IsTrue result ↔ AreApart sessions.now }
{
    for i in 1..sessions.len() {
        if sessions[i - 1].worker() == sessions[i].worker() {
            return false;
        }
    }
    true
}
