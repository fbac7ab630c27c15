//! The place of an answer in the memory of C, built as `crate::held` says. The answer is that of `tg_could`.
ghost use Rattle.std.specs.Prelude.{◌≡◌, Bool};
ghost use Rattle.tg_c.specs.declared.outlook.Outlook.{Outlook as OutlookValue};
ghost use Rattle.tg_c.specs.contracts.outlook.Outlook.{the_row};
ghost use Rattle.tg_c.specs.Held.{held_by};
ghost use Rattle.tg_c.specs.Inner.Places.{Holds};

use crate::handle::Handle;
use crate::held::{Held, Holder};
use crate::outlook::Outlook;
use std::alloc::Global;
use std::marker::Model;

/// The box of an open answer as its pointer, or none. 8 bytes.
#[repr(C)]
#[derive(Drop)]
pub struct AnswerHandle {
    at: *mut u8,
    alloc: Global,
    pub ghost is_open: { Bool },
    pub ghost opened: { OutlookValue } by { the_row.coded },
}

impl Model for AnswerHandle {
    ghost also_owns = { λ h. held_by the_row h.is_open h.alloc h.at h.opened };
}

impl AnswerHandle {
    // Returns the handle with this box, or none, and the box that the handle had. C doesn't see the pointer's type.
    fn exchange(self, with: Handle<Outlook, Global>) -> (AnswerHandle, Handle<Outlook, Global>)
        ensures { Holds self.is_open self.opened result.1.opened × Holds result.0.is_open result.0.opened with.opened }
    {
        let AnswerHandle { at, alloc } = self;
        let had = Handle {
            at: at as *mut Outlook,
            alloc,
        };
        let Handle { at, alloc } = with;
        let handle = AnswerHandle {
            at: at as *mut u8,
            alloc,
        };
        (handle, had)
    }
}

/// An answer that C holds, in 16 bytes. A closed place has only zero bytes. The place may be moved. Of two copies only
/// one may be used, and nothing checks this.
#[repr(C)]
#[derive(Drop)]
pub struct AnswerPlace {
    /// Whether there is an answer.
    pub is_open: bool,
    /// The answer's handle, or none.
    pub handle: AnswerHandle,
    pub ghost agrees: { handle.is_open ≡ is_open },
}

impl Holder<Outlook> for AnswerPlace {
    ghost is_open = { λ p. p.is_open };

    ghost opened = { λ p. p.handle.opened };

    fn exchange(self, with: Held<Outlook>) -> (AnswerPlace, Held<Outlook>)
        ensures { Holds self.is_open self.handle.opened result.1.handle.opened × Holds result.0.is_open result.0.handle.opened with.handle.opened }
    {
        let (handle, had) = self.handle.exchange(with.handle);
        let place = AnswerPlace {
            is_open: with.is_open,
            handle,
        };
        (
            place,
            Held {
                is_open: self.is_open,
                handle: had,
            },
        )
    }
}
