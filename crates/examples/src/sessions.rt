//! The calls of a session that the stories share.

use std::sync::Wait;
use tg_model::{Command, Reply};
use tg_payload::{Draft, Payload};
use tg_rights::Label;
use tg_shared::{Round, Session, SharedStore};
use tg_store::StoreFault;

/// Makes a vertex over which the session's subject has these rights. Returns its name.
pub fn make<L: Round, P: Payload, R: Wait>(
    rt: &R,
    store: &SharedStore<L, P>,
    session: &mut Session<L>,
    rights: Label,
    draft: Draft<P>,
) -> Result<u64, StoreFault> {
    Ok(session.create(rt, store, rights, draft)?)
}

/// Asks the store for a command of the session's subject. Returns the reply. A denial is a reply.
pub fn reply_to<'a, L: Round, P: Payload, R: Wait>(
    rt: &R,
    store: &SharedStore<L, P>,
    session: &'a mut Session<L>,
    command: Command,
) -> Result<&'a Reply, StoreFault> {
    Ok(session.call(rt, store, command)?)
}
