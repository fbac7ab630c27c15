//! A vertex made for a session, and the receipt of its entry.
ghost use Rattle.std.specs.Prelude.{◌≡◌, ◌+◌, Some, None, IfOk, IfErr};
ghost use Rattle.tg_store.specs.Made.{IsMadeFor, MayRefuse};
ghost use Rattle.tg_model.specs.Making.{deed_making};
ghost use Rattle.tg_shared.specs.Serving.{RefusesCrowd, SignsDeed};
ghost use Rattle.tg_shared.specs.Sessions.{MayNote, Records, RecordsNothing, StaysOut, reply_entered, reply_made};

use crate::round::{Register, Round};
use crate::session::Session;
use tg_journal::Entry;
use tg_model::{Making, Reply, Value};
use tg_payload::{Draft, Payload};
use tg_rights::Label;
use tg_store::{CreateFault, CreateRefused, Store};

/// Makes a vertex of a kind for the session's subject, by one call of the store. If an entry was made, its receipt is
/// noted.
pub(crate) fn make<L: Round, P: Payload>(
    store: &mut Store<P>,
    register: &mut Register<L>,
    session: &mut Session<L>,
    kind: Making,
    label: Label,
    draft: Draft<P>,
) -> Result<u64, CreateRefused<P>>
    requires notable { MayNote session.old draft.state }
    requires out { StaysOut L.start store.old register.old.roll.signed session.old }
    ensures made { IfOk result (IsMadeFor (deed_making kind label draft) session.old.worker label draft store.old store.new) }
    ensures refusals { MayRefuse (deed_making kind label draft) session.old.worker draft store.old store.new result }
    ensures too_many { IfErr result (λ refused. refused.why ≡ CreateFault.WorkersFull → kind ≡ Making.Subject) }
    ensures crowded { kind ≡ Making.Subject → RefusesCrowd session.old.worker store.old result }
    ensures noted { (reply : Reply) → reply_made result ≡ Some reply → Records store.old store.new session.old session.new (deed_making kind label draft) reply × (register.new.book.total ≡ register.old.book.total + 1) }
    ensures signed { (reply : Reply) → reply_made result ≡ Some reply →
        SignsDeed register.old.roll register.new.roll session.old session.new (deed_making kind label draft) reply }
    ensures same_heap { IfErr result (λ refused. (reply : Reply) → reply_entered refused.why ≡ Some reply → store.new.heap ≡ store.old.heap) }
    ensures nothing { reply_made result ≡ None → RecordsNothing store.old store.new session.old session.new × (register.new ≡ register.old) }
{
    let at = store.journal().len();
    let worker = session.worker();
    let law = draft.value().law;
    let state = session.take_copy();
    let answer = store.make(worker, kind, label, draft);
    if let Some(reply) = reply_made(&answer) {
        let deed = kind.deed(label, Value { law, state });
        session.note(
            register,
            at,
            Entry {
                worker,
                deed,
                reply,
            },
        );
    }
    answer
}

// The reply that the answer of a make has in the journal, if it made an entry.
fn reply_made<P: Payload>(answer: &Result<u64, CreateRefused<P>>) -> Option<Reply>
    ensures { result ≡ reply_made answer.now }
{
    match answer {
        Ok(name) => Some(Reply::Name(*name)),
        Err(refused) => entered(refused.why),
    }
}

// The reply that a refusal has in the journal, if it made an entry.
fn entered(why: CreateFault) -> Option<Reply>
    ensures { result ≡ reply_entered why }
{
    match why {
        CreateFault::VerticesFull => Some(Reply::VerticesFull),
        CreateFault::WorkersFull => Some(Reply::WorkersFull),
        CreateFault::NoSuchWorker | CreateFault::OutOfMemory | CreateFault::HeapFull => None,
    }
}
