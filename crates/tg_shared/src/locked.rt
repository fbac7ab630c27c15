//! The value in the lock, and how each call changes it.
ghost use Rattle.std.specs.Prelude.{◌≡◌, ◌≢◌, ◌<◌, ◌≤◌, ◌+◌, ◌^◌, ℕ, [], Err, true, IfOk, IfErr, OnOk, OnErr, drop, length, max, min};
ghost use Rattle.std.specs.List.{All};
ghost use Rattle.tg_subjects.specs.Subjects.{AreSubjects, names_of};
ghost use Rattle.tg_shared.specs.Sessions.{AreFresh};

use crate::keeper::Keeper;
use crate::making::make;
use crate::mirror::Mirrored;
use crate::round::{Blanks, HandedOut, Register, Rolled, Round};
use crate::session::Session;
use std::alloc::{AllocError, Global};
use std::marker::Model;
use std::sync::ledger::Share;
use tg_journal::{Entry, Journal};
use tg_model::{Command, Deed, Making, Picture};
use tg_passes::Roll;
use tg_payload::{Draft, Payload};
use tg_rights::Label;
use tg_store::{ApplyFault, CreateFault, CreateRefused, Kind, RoomFault, Store};
use tg_subjects::Subject;

/// The locked value. It has the store, the book and the roll, and the parts of the ledger that no session has. The book
/// counts the store's entries since it was shared. The roll has these entries, with who made each. Each call is one
/// call of the store, with its contract. A call for a session makes a receipt of each entry.
///
/// Contracts see a `LockedState`. It has the store, and how many sessions were made. It also has how many entries the
/// keeper made for workers, and all entries since the start with who made each.
#[derive(Drop)]
pub struct Locked<L: Round, P: Payload> {
    pub(crate) store: Store<P>,
    pub(crate) start: u64,
    pub(crate) sessions: u64,
    // How many entries are the keeper's. No session has a receipt of them. They are the amount of the rest of the
    // ledger.
    pub(crate) entered: u64,
    // How many entries the store has handed out, which the keeper knows.
    pub(crate) handed: Mirrored<HandedOut<L>>,
    pub(crate) register: Register<L>,
    pub(crate) rest: Share<L>,
}

impl<L: Round, P: Payload> Model for Locked<L, P> {
    ghost use Rattle.std.specs.Prelude.{◌≡◌, length};
    ghost use Rattle.tg_shared.specs.Sessions.{GoesOn, IsBalanced, IsRolled, LockedState, sessions_made};

    ghost Value = { LockedState };

    ghost view = { λ a. record { store = a.store; sessions = a.sessions; entered = a.entered; signed = a.register.roll.signed } };

    ghost invariant = { λ a. (IsBalanced a.store (length L.start.entries) a.sessions a.register.book.total a.rest.parts L.parts × (a.start ≡ length L.start.entries) × ((a.rest.amount ≡ a.entered) × (a.handed ≡ a.store.handed)) × GoesOn L.start a.store × (a.sessions ≡ sessions_made L.start a.store.entries)) × IsRolled L.start a.store a.register.roll a.entered };
}

impl<L: Round, P: Payload> Locked<L, P> {
    ghost use Rattle.tg_model.specs.Graph.{ProtectionGraph};
    ghost use Rattle.tg_could.specs.Reached.{IsReachedPicture};
    ghost use Rattle.tg_store.specs.Held.{IsHeldOver};
    ghost use Rattle.tg_store.specs.Made.{MayRefuse};
    ghost use Rattle.tg_store.specs.Room.{LacksRoomToCollect};
    ghost use Rattle.tg_store.specs.Store.{StandsFor};
    ghost use Rattle.tg_passes.specs.Passes.{Sees};
    ghost use Rattle.tg_shared.specs.Serving.{Collects, EndsWorker, HasNoted, HasNotedEnd, IsLookedAt, IsMadeAndNoted, IsSpawnedAndNoted, KeepsNumbers, KeepsRound, NotesLeaving, NotesRefusal, RefusesCrowd, ServesCommand};
    ghost use Rattle.tg_shared.specs.Sessions.{AreFresh, HoldsWhenFree, MayNote, MayShare, held_after, keeper_knowledge, knowledge};

    /// The store, and the facts that hold whenever the lock is free (`held`). The store keeps its own promise. Its
    /// journal is a legal history of its opening, and its heap represents the graph after this history. The store comes
    /// from the shared store. It has the same opening, limits and earlier entries, and since then exactly the entries
    /// that the roll has (`grown_by`). One session was made for each subject that the shared store had, and one for
    /// each subject that was made since. If its start lets the keeper end nobody, the keeper made no entry.
    pub fn store(&self) -> &Store<P>
        ensures same { result.now ≡ self.now.store }
        ensures held { HoldsWhenFree L.start self.now }
        ensures grown { length L.start.entries ≤ length self.now.store.entries }
    {
        // This call shows that the store is faithful.
        let _ = self.store.journal();
        &self.store
    }

    /// How many sessions were made. If none is missing, so many are there. Each counts for itself and for the sessions
    /// that it took over.
    pub fn sessions(&self) -> u64
        ensures { result ≡ self.now.sessions }
    {
        self.sessions
    }

    /// How many entries the keeper made for workers, in ends, withdrawals, parkings and unparkings. No session has a
    /// receipt of them.
    pub fn entered(&self) -> u64
        ensures { result ≡ self.now.entered }
    {
        self.entered
    }

    /// The keeper looks at all entries since the start, and has then seen them. All else stays as it was. The entries
    /// that the keeper made are exactly the keeper's among all. All begin with the entries that it had seen (`sees`).
    /// The facts that hold whenever the lock is free are shown too (`held`). The store holds its entries from the place
    /// at which the keeper's last part ended.
    pub fn tell(&mut self, keeper: &mut Keeper<L>)
        ensures looks { IsLookedAt L.start self.old self.new (keeper_knowledge keeper.old) }
        ensures next { keeper.old.next ≡ self.old.store.handed }
        ensures keeper { keeper.new ≡ record keeper.old { seen = self.old.signed } }
    {
        // It shows that the store is faithful.
        let _ = self.store.journal();
        self.register.roll.look(&mut keeper.pass);
        self.handed.tell(&mut keeper.next);
    }

    /// The session looks at all entries since the start, and has then seen them. All else stays as it was. The entries
    /// that its own calls made are exactly its own among all. All begin with the entries that it had seen (`sees`). The
    /// facts that hold whenever the lock is free are shown too (`held`).
    pub fn look(&mut self, session: &mut Session<L>)
        ensures looks { IsLookedAt L.start self.old self.new (knowledge session.old) }
        ensures session { session.new ≡ record session.old { seen = self.old.signed } }
    {
        // It shows that the store is faithful, so who was gone stays so.
        let _ = self.store.journal();
        session.look(&mut self.register.roll);
    }

    /// Shares a store. Makes the value to be locked, a session for each subject of the store's graph, and its one
    /// keeper. The blanks are spent. The blank of the sessions has to have one part more than vertices may be made.
    /// Fails only when out of memory, and hands the store back.
    pub fn open(
        alloc: Global,
        blanks: Blanks,
        store: Store<P>,
    ) -> Result<(Locked<L, P>, Vec<Session<L>>, Keeper<L>), Store<P>>
        requires shareable { MayShare L.name L.parts L.keeper L.start blanks store }
        ensures store { IfOk result (λ opened. opened.0.store ≡ store) }
        ensures sessions { (g : ProtectionGraph) → StandsFor store g → IfOk result (λ opened. AreFresh g.subjects opened.1.items) }
        ensures number { IfOk result (λ opened. opened.0.sessions ≡ length opened.1.items) }
        ensures none_ended { IfOk result (λ opened. opened.0.entered ≡ 0) }
        ensures none_signed { IfOk result (λ opened. opened.0.signed ≡ []) }
        ensures keeper { IfOk result (λ opened. opened.2 ≡ record { next = store.handed; made = []; seen = [] }) }
        ensures handed_back { IfErr result (λ refused. refused ≡ store) }
    {
        let Blanks {
            sessions: blank,
            handed,
            roll,
        } = blanks;
        let (book, mut rest) = blank.open::<L>();
        let (mut roll, pass) = roll.open();
        let start = store.journal().len();
        let (handed, next) = Mirrored::new(handed, store.journal().start());
        let Ok(sessions) = sessions_of(alloc, &mut rest, &mut roll, store.subjects()) else {
            return Err(store);
        };
        let locked = Locked {
            store,
            start,
            sessions: sessions.len() as u64,
            entered: 0,
            handed,
            register: Register { book, roll },
            rest,
        };
        Ok((locked, sessions, Keeper::new(next, pass)))
    }

    /// Takes a command of the session's subject, by one call of the store. A call that makes an entry adds a receipt
    /// with the reply, which is that of the rules on the store's graph. A refused call leaves the store and the
    /// receipts as they were. There has to be room for the receipt.
    pub fn apply(&mut self, session: &mut Session<L>, command: Command) -> Result<(), ApplyFault>
        requires room { 0 < session.old.spare }
        ensures served { ServesCommand command self.old.store self.new.store session.old session.new result }
        ensures kept { KeepsRound self.old self.new }
        ensures signed { HasNoted self.old self.new session.old session.new }
        ensures spare { OnOk result (session.new.spare + 1 ≡ session.old.spare) }
        ensures collections { self.new.store.collections ≡ self.old.store.collections }
    {
        let at = self.store.journal().len();
        let worker = session.worker();
        let deed = deed_of(&command);
        let reply = self.store.apply(worker, command)?;
        // It shows that the store is faithful, so a session that has retired knows it.
        let _ = self.store.journal();
        let entry = Entry {
            worker,
            deed,
            reply,
        };
        session.note(&mut self.register, at, entry);
        Ok(())
    }

    /// Makes a vertex of the session's subject, by one call of the store. A call that makes an entry adds a receipt,
    /// and so does `VerticesFull`. Any other refusal leaves the store and the receipts as they were. There has to be
    /// room for the receipt, and the session has to have a copy of the draft's state.
    pub fn create(
        &mut self,
        session: &mut Session<L>,
        label: Label,
        draft: Draft<P>,
    ) -> Result<u64, CreateRefused<P>>
        requires notable { MayNote session.old draft.state }
        ensures served { IfOk result (IsMadeAndNoted (Deed.Create label draft.law draft.state) label draft self.old.store self.new.store session.old session.new) }
        ensures refusals { MayRefuse (Deed.Create label draft.law draft.state) session.old.worker draft self.old.store self.new.store result }
        ensures noted { NotesRefusal (Deed.Create label draft.law draft.state) self.old.store self.new.store session.old session.new result }
        ensures no_workers_full { IfErr result (λ refused. refused.why ≢ CreateFault.WorkersFull) }
        ensures numbers { KeepsNumbers self.old self.new }
        ensures signed { HasNoted self.old self.new session.old session.new }
    {
        // This call shows that the store is faithful. So a session that has retired has no subject in it.
        let _ = self.store.journal();
        make(
            &mut self.store,
            &mut self.register,
            session,
            Making::Object,
            label,
            draft,
        )
    }

    /// Makes a subject by one call of the store, and a session for it. The session has no receipt, and one part of the
    /// ledger, which comes from the locked rest. A call that makes an entry adds a receipt to the session that asks,
    /// and so do `VerticesFull` and `WorkersFull`. Any other refusal leaves the store and the receipts as they were.
    /// There has to be room for the receipt, and the session has to have a copy of the draft's state. The new session
    /// takes no memory, so nothing is refused after the store's call.
    pub fn spawn(
        &mut self,
        session: &mut Session<L>,
        label: Label,
        draft: Draft<P>,
    ) -> Result<Session<L>, CreateRefused<P>>
        requires notable { MayNote session.old draft.state }
        ensures served { IfOk result (IsSpawnedAndNoted label draft self.old.store self.new.store session.old session.new) }
        ensures refusals { MayRefuse (Deed.Spawn label draft.law draft.state) session.old.worker draft self.old.store self.new.store result }
        ensures noted { NotesRefusal (Deed.Spawn label draft.law draft.state) self.old.store self.new.store session.old session.new result }
        ensures crowded { RefusesCrowd session.old.worker self.old.store result }
        ensures one_more { OnOk result (self.new.sessions ≡ self.old.sessions + 1) }
        ensures no_more_sessions { OnErr result (self.new.sessions ≡ self.old.sessions) }
        ensures entered { self.new.entered ≡ self.old.entered }
        ensures signed { HasNoted self.old self.new session.old session.new }
        ensures fresh_seen { IfOk result (λ fresh. fresh.seen ≡ self.new.signed) }
    {
        // This call shows that the store is faithful. So there is a part left.
        let _ = self.store.journal();
        let name = make(
            &mut self.store,
            &mut self.register,
            session,
            Making::Subject,
            label,
            draft,
        )?;
        self.sessions += 1;
        let share = self.rest.split_off(1, 0);
        let pass = self.register.roll.issue(name);
        Ok(Session::new(session.alloc(), name, share, pass))
    }

    /// The session's worker leaves, by one call of the store. It gives up each edge that it has, by rising name, and
    /// retires. Each of these entries adds a receipt. Returns how many edges it gave up.
    ///
    /// Room for all entries and receipts is made first, under the lock, because the row may grow until then. It takes
    /// 168 bytes for each edge, and 32 for its listing. `NoSuchWorker` is returned exactly if the session's subject is
    /// active no more, and the only other refusal is `OutOfMemory`. The store and the receipts are then as they were. A
    /// leave is done as a whole, or is refused before its first entry.
    pub fn leave(&mut self, session: &mut Session<L>) -> Result<u64, ApplyFault>
        ensures ended { EndsWorker session.old.worker self.old.store self.new.store result }
        ensures noted { NotesLeaving self.old.store session.old session.new result }
        ensures numbers { KeepsNumbers self.old self.new }
        ensures signed { HasNoted self.old self.new session.old session.new }
    {
        let at = self.store.journal().len();
        let worker = session.worker();
        let row = self.store.row(worker)?;
        session.make_room_for(row.as_slice().len() + 1)?;
        let count = self.store.leave(worker)?;
        // This call shows that the store is faithful, and that the journal's places are numbers.
        let _ = self.store.journal().len();
        session.note_leaving(&mut self.register, at, &row);
        Ok(count)
    }

    /// Ends a worker, whose session may be anywhere, by one call of the store. The worker gives up each edge that it
    /// has, by rising name, and retires. Returns how many edges it gave up. Each of these entries is noted as the
    /// keeper's, and no session has a receipt of it. From then on the worker's own session receives that there is no
    /// such worker. Whether the call is refused or not, the keeper has then seen all entries.
    ///
    /// Room for all entries is made first. It takes 80 bytes for each edge, and 16 for its listing. `NoSuchWorker` is
    /// returned exactly if no worker has the name, and the only other refusal is `OutOfMemory`. The locked value is
    /// then as it was. An end is done as a whole, or is refused before its first entry.
    pub fn end(&mut self, keeper: &mut Keeper<L>, worker: u64) -> Result<u64, ApplyFault>
        requires may_end { L.start.may_end ≡ true }
        ensures ended { EndsWorker worker self.old.store self.new.store result }
        ensures sees { Sees self.old.signed (keeper_knowledge keeper.old) }
        ensures signed { HasNotedEnd self.old self.new keeper.old keeper.new }
        ensures entered { IfOk result (λ count. self.new.entered ≡ self.old.entered + (count + 1)) }
        ensures none_entered { OnErr result (self.new.entered ≡ self.old.entered) }
        ensures sessions { self.new.sessions ≡ self.old.sessions }
    {
        self.register.roll.look(&mut keeper.pass);
        let at = self.store.journal().len();
        let count = self.store.leave(worker)?;
        let entries = self.store.journal().len() - at;
        self.register.book.add(&mut self.rest, entries);
        // It shows that so many entries were made, so their number is one.
        self.register.book.audit(&mut self.rest);
        keeper.note_all(
            &mut self.register.roll,
            entries_from(self.store.journal(), at),
        );
        self.entered += entries;
        Ok(count)
    }

    /// The rights that the session's subject holds over a vertex, by one call of the store. It changes nothing, and
    /// makes no entry and no receipt.
    pub fn label(&self, session: &Session<L>, target: u64) -> Option<Label>
        ensures held { (g : ProtectionGraph) → StandsFor self.now.store g → IsHeldOver g session.now.worker target result }
    {
        self.store.label(session.worker(), target)
    }

    /// The picture of the vertices that the active subjects reach on the store's graph, by one call of the store. It
    /// changes nothing, and makes no entry and no receipt. The lock is held while all reached rows are read. Fails only
    /// when out of memory.
    pub fn picture(&self, alloc: Global) -> Result<Picture, AllocError>
        ensures { (g : ProtectionGraph) → StandsFor self.now.store g → IfOk result (λ picture. IsReachedPicture picture g) }
    {
        self.store.picture(alloc)
    }

    /// Hands out the entries that the store holds, by one call of the store. The store has to be shared so that its
    /// journal is handed out in parts. The entries begin at the end of the keeper's part before. Sessions stay as they
    /// are. Their receipts are of the same entries as before, wherever the entries are.
    pub fn take_journal(&mut self, keeper: &mut Keeper<L>) -> Journal
        requires in_parts { L.start.in_parts ≡ true }
        ensures joined { result.start ≡ keeper.old.next }
        ensures next { keeper.new ≡ record keeper.old { next = length result.entries } }
        ensures entries { result.entries ≡ self.old.store.entries }
        ensures start { result.start ≡ self.old.store.handed }
        ensures handed_out { self.new ≡ record self.old { store = record self.old.store { handed = length self.old.store.entries } } }
    {
        let journal = self.store.take_journal();
        let entries = journal.len() - journal.start();
        self.handed.raise(&mut keeper.next, entries);
        journal
    }

    /// Gives up the entries before a place, by one call of the store, if it was shared so as to be handed out in parts.
    /// They count as handed out to the keeper, and the journal keeps their room. All entries are given up if the place
    /// is after the last entry, and none if they were all handed out before. No session is touched.
    pub fn forget(&mut self, keeper: &mut Keeper<L>, upto: u64)
        requires in_parts { L.start.in_parts ≡ true }
        ensures joined { keeper.old.next ≡ self.old.store.handed }
        ensures keeper { keeper.new ≡ record keeper.old { next = held_after upto self.old.store } }
        ensures forgotten { self.new ≡ record self.old { store = record self.old.store { handed = held_after upto self.old.store } } }
    {
        let start = self.store.journal().start();
        let upto = place_held(self.store.journal(), upto);
        self.store.forget(upto);
        self.handed.raise(&mut keeper.next, upto - start);
    }

    /// Collects the heap, by one call of the store. The journal stays as it is, and no session is touched.
    pub fn collect(&mut self, kind: Kind) -> Result<u64, RoomFault>
        ensures collected { Collects kind 0 self.old self.new result }
        ensures full { result ≡ Err RoomFault.HeapFull →
            LacksRoomToCollect kind 1 self.old.store.heap }
    {
        self.store.collect(kind)
    }
}

fn deed_of(command: &Command) -> Deed
    ensures { result ≡ Deed.Plain command.now }
{
    Deed::Plain(*command)
}

// The place from which on a journal holds its entries, after the entries before this place were given up.
fn place_held(journal: &Journal, upto: u64) -> u64
    ensures { result ≡ max journal.now.start (min upto (length journal.now.entries)) }
{
    upto.min(journal.len()).max(journal.start())
}

/// The entries of a journal from a place on.
pub(crate) fn entries_from(journal: &Journal, at: u64) -> &[Entry]
    requires { (journal.now.start ≤ at) × (at ≤ length journal.now.entries) }
    ensures { result.now ≡ drop at journal.now.entries }
{
    &journal.entries()[(at - journal.start()) as usize..]
}

// A session for each subject, each with one part of the share and with a pass.
fn sessions_of<L: Round>(
    alloc: Global,
    rest: &mut Share<L>,
    roll: &mut Roll<Rolled<L>>,
    subjects: &[Subject],
) -> Result<Vec<Session<L>>, AllocError>
    requires parts { (length subjects.now < rest.old.parts) × (rest.old.amount ≡ 0) × (L.parts < 2 ^ 64) }
    requires rising { AreSubjects subjects.now }
    requires none_yet { (roll.old.signed ≡ []) × (roll.old.below ≡ 0) }
    ensures fresh { IfOk result (λ sessions. AreFresh (names_of subjects.now) sessions.items) }
    ensures rest { OnOk result ((rest.new.parts + length subjects.now ≡ rest.old.parts) × (rest.new.amount ≡ 0)) }
    ensures roll { OnOk result ((roll.new.signed ≡ []) × ((made : ℕ) → All (λ subject. subject.name < made) subjects.now → roll.new.below ≤ made)) }
{
    let mut sessions = Vec::new(alloc);
    for subject in subjects {
        let share = rest.split_off(1, 0);
        let pass = roll.issue(subject.name);
        sessions.push(Session::new(alloc, subject.name, share, pass))?;
    }
    Ok(sessions)
}
