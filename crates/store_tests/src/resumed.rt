//! What a store that was resumed has beside what the contracts of `tg_resume` say. What two stores answer to the same
//! commands is a test in Python (`FromEntries` in `bindings/python/tests/test_going_on.py`). The places of entries that
//! aren't legal are in the same file.

mod hosts;
mod shown;

use tg_payload::Payload;
use tg_resume::ResumeStopped;
use tg_store::Store;

/// Lets go what is left of a store that wasn't resumed to the end of a part. It takes the refusal apart, because a
/// `drop` would prove anew in this crate how each part of a store is dropped.
pub(crate) fn let_go<P: Payload>(stopped: ResumeStopped<P>) {
    match stopped {
        ResumeStopped::BadPlace { store, .. } => store.let_go(),
        ResumeStopped::BadEntry { .. } => {}
        ResumeStopped::NoRoom { store, .. } => store.let_go(),
    }
}

/// The store, if it was resumed to the end of a part.
pub(crate) fn whole<P: Payload>(outcome: Result<Store<P>, ResumeStopped<P>>) -> Option<Store<P>> {
    match outcome {
        Ok(store) => Some(store),
        Err(stopped) => {
            let_go(stopped);
            None
        }
    }
}
