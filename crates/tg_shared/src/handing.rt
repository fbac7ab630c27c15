//! Rights that a session's subject hands on, in one taking of the lock.
ghost use Rattle.std.specs.Prelude.{◌≡◌, ◌≢◌, ◌≤◌, ◌<◌, ◌+◌, ◌^◌, IfOk, IfErr, IsErrAnd, false, true, length};
ghost use Rattle.tg_model.specs.declared.command.Deed.TheVariants.{Plain};
ghost use Rattle.tg_store.specs.Handing.{entries_of_hand};
ghost use Rattle.tg_shared.specs.Handing.{HandsAtSeen, RefusesHand, ServesHand, entries_handed, hand_by};
ghost use Rattle.tg_shared.specs.Serving.{HasNoted, Signs};
ghost use Rattle.tg_shared.specs.Sessions.{AddsReceipts, StillActs, retired_behind};

use crate::locked::Locked;
use crate::round::{Register, Round};
use crate::session::Session;
use crate::shared::SharedStore;
use std::sync::Wait;
use tg_journal::Entry;
use tg_model::{Command, Deed, Reply};
use tg_payload::Payload;
use tg_rights::Label;
use tg_store::{ApplyFault, Hand, Handed, removal};

/// Rights that a session's own subject hands on ([`Session::hand`]). The subject takes rights over the target from
/// `from`, and grants them to `to`. Then it removes the rights among them that it didn't hold before. The names are the
/// same as in a [`Hand`] of the store.
#[derive(Clone, Copy, PartialEq, Eq, Debug)]
pub struct OwnHand {
    /// Who holds the rights over the target.
    pub from: u64,
    /// Who is to hold them too.
    pub to: u64,
    /// The vertex that the rights are over.
    pub target: u64,
    /// The rights, of which there is at least one.
    pub rights: Label,
}

impl OwnHand {
    // The hand that this worker asks the store for.
    fn by(self, worker: u64) -> Hand
        ensures { result ≡ hand_by worker self }
    {
        let OwnHand {
            from,
            to,
            target,
            rights,
        } = self;
        Hand {
            via: worker,
            from,
            to,
            target,
            rights,
        }
    }
}

impl<L: Round, P: Payload> Locked<L, P> {
    // Hands rights on in the name of the session's subject, by one call of the store. Adds a receipt of each entry, at
    // most three, for which there has to be room. A refused call leaves the store and the receipts as they were.
    fn hand(&mut self, session: &mut Session<L>, hand: OwnHand) -> Result<Handed, ApplyFault>
        requires room { 3 ≤ session.old.spare }
        ensures served { ServesHand hand self.old.store self.new.store session.old session.new result }
        ensures signed { HasNoted self.old self.new session.old session.new }
    {
        let at = self.store.journal().len();
        let hand = hand.by(session.worker());
        let handed = self.store.hand(hand)?;
        // This call shows that the store is faithful, and that the journal's places are numbers.
        let _ = self.store.journal().len();
        session.note_hand(&mut self.register, at, &hand, &handed);
        Ok(handed)
    }
}

impl<L: Round> Session<L> {
    /// Hands rights on in the name of the session's subject, as [`Store::hand`](tg_store::Store::hand) does, in one
    /// taking of the lock. The subject takes the rights, grants them, and removes the rights that it didn't hold
    /// before. Each command has an entry and a receipt of its own. So two or three receipts come, whose places follow
    /// one another, without an entry of another session between them. The answer says which rights were removed.
    ///
    /// A hand that is denied has one receipt, of the denied command. The denial is that of the rules on the graph
    /// before the hand, and nothing else changes. [`call`](Session::call) says what the session knows of the entries
    /// that it has then seen.
    ///
    /// A refused call keeps the receipts, and the rights are as they were. Its reason is one of a store with exactly
    /// the entries that the session has then seen, unless memory ran out:
    ///
    /// - `NoSuchWorker`, if there was no such worker. After a retire that the session entered itself, the call always
    ///   reports it, and takes no lock.
    /// - `OutOfMemory`, if memory runs out for three receipts, whose room is made before the lock is taken, for three
    ///   entries, or for a block.
    /// - `HeapFull`, only if the hand was allowed and a cell was lacking.
    pub fn hand<P: Payload, R: Wait>(
        &mut self,
        rt: &R,
        store: &SharedStore<L, P>,
        hand: OwnHand,
    ) -> Result<Handed, ApplyFault>
        ensures handed { IfOk result (HandsAtSeen L.start hand self.old self.new) }
        ensures refused { IfErr result (RefusesHand L.start hand self.old self.new) }
        ensures retired { self.old.retired ≡ true → IsErrAnd result (λ why. why ≡ ApplyFault.NoSuchWorker) }
    {
        self.make_ready_for(3)?;
        let mut locked = store.lock(rt);
        // It shows what holds of the store, all of whose entries the session has then seen.
        locked.look(self);
        let handed = locked.hand(self, hand);
        // It shows what holds of the store that is left.
        let _ = locked.store();
        handed
    }

    // Adds the receipts of the entries that were made of a hand, which are at this place and the next places.
    fn note_hand(&mut self, register: &mut Register<L>, at: u64, hand: &Hand, handed: &Handed)
        requires own { hand.now.via ≡ self.old.worker }
        requires room { 3 ≤ self.old.spare }
        requires places { at + length (entries_handed hand.now handed.now) < 2 ^ 64 }
        requires stays { retired_behind false (entries_handed hand.now handed.now) ≡ false }
        requires still { StillActs L.start register.old.roll.signed self.old }
        ensures receipts { AddsReceipts self.old self.new at (entries_handed hand.now handed.now) }
        ensures signed { Signs register.old.roll register.new.roll self.old self.new (entries_handed hand.now handed.now) }
        ensures book { register.new.book.total ≡ register.old.book.total + length (entries_handed hand.now handed.now) }
    {
        // It shows that the session hadn't retired.
        self.look(&mut register.roll);
        match handed {
            Handed::Done { removed } => self.note_done(register, at, hand, removed),
            Handed::Denied { command, denial } => {
                let entry = entry_by(hand.via, *command, Reply::Denied(*denial));
                self.note(register, at, entry);
            }
        }
    }

    // Adds the receipts of a hand that was done. They are of the take, the grant, and the remove if there is one.
    fn note_done(
        &mut self,
        register: &mut Register<L>,
        at: u64,
        hand: &Hand,
        removed: &Option<Label>,
    )
        requires own { hand.now.via ≡ self.old.worker }
        requires room { 3 ≤ self.old.spare }
        requires places { at + length (entries_of_hand hand.now removed.now) < 2 ^ 64 }
        requires acts { self.old.retired ≢ true }
        ensures receipts { AddsReceipts self.old self.new at (entries_of_hand hand.now removed.now) }
        ensures signed { Signs register.old.roll register.new.roll self.old self.new (entries_of_hand hand.now removed.now) }
        ensures book { register.new.book.total ≡ register.old.book.total + length (entries_of_hand hand.now removed.now) }
    {
        let Hand {
            via: worker,
            from,
            to,
            target,
            rights,
        } = *hand;
        let take = Command::Take {
            rights,
            via: from,
            target,
        };
        self.note(register, at, entry_by(worker, take, Reply::Done));
        let grant = Command::Grant {
            rights,
            via: to,
            target,
        };
        self.note(register, at + 1, entry_by(worker, grant, Reply::Done));
        if let Some(back) = removed {
            self.note(register, at + 2, removal(worker, target, *back));
        }
    }
}

// The entry of a worker's command, with its reply.
fn entry_by(worker: u64, command: Command, reply: Reply) -> Entry
    ensures { result ≡ record { worker = worker; deed = Plain command; reply = reply } }
{
    Entry {
        worker,
        deed: Deed::Plain(command),
        reply,
    }
}
