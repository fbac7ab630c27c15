//! The auditor's place in the memory of C, built as `crate::held` says.
ghost use Rattle.std.specs.Prelude.{◌≡◌, Bool};
ghost use Rattle.tg_c.specs.declared.auditor.audit.Audit.{Audit as AuditValue};
ghost use Rattle.tg_c.specs.contracts.auditor.audit.Audit.{the_row};
ghost use Rattle.tg_c.specs.Held.{held_by};
ghost use Rattle.tg_c.specs.Inner.Places.{Holds};

use crate::auditor::audit::Audit;
use crate::handle::Handle;
use crate::held::{Held, Holder};
use std::alloc::Global;
use std::marker::Model;

/// The box of an open auditor as its pointer, or none. 8 bytes.
#[repr(C)]
#[derive(Drop)]
pub struct AuditorHandle {
    at: *mut u8,
    alloc: Global,
    pub ghost is_open: { Bool },
    pub ghost opened: { AuditValue } by { the_row.coded },
}

impl Model for AuditorHandle {
    ghost also_owns = { λ h. held_by the_row h.is_open h.alloc h.at h.opened };
}

impl AuditorHandle {
    // Returns the handle with this box, or none, and the box that the handle had. C doesn't see the pointer's type.
    fn exchange(self, with: Handle<Audit, Global>) -> (AuditorHandle, Handle<Audit, Global>)
        ensures { Holds self.is_open self.opened result.1.opened × Holds result.0.is_open result.0.opened with.opened }
    {
        let AuditorHandle { at, alloc } = self;
        let had = Handle {
            at: at as *mut Audit,
            alloc,
        };
        let Handle { at, alloc } = with;
        let handle = AuditorHandle {
            at: at as *mut u8,
            alloc,
        };
        (handle, had)
    }
}

/// An auditor that C holds, in 16 bytes. A closed place has only zero bytes. The place may be moved. Of two copies only
/// one may be used, and nothing checks this.
#[repr(C)]
#[derive(Drop)]
pub struct AuditorPlace {
    /// Whether there is an auditor.
    pub is_open: bool,
    /// The auditor's handle, or none.
    pub handle: AuditorHandle,
    pub ghost agrees: { handle.is_open ≡ is_open },
}

impl Holder<Audit> for AuditorPlace {
    ghost is_open = { λ p. p.is_open };

    ghost opened = { λ p. p.handle.opened };

    fn exchange(self, with: Held<Audit>) -> (AuditorPlace, Held<Audit>)
        ensures { Holds self.is_open self.handle.opened result.1.handle.opened × Holds result.0.is_open result.0.handle.opened with.handle.opened }
    {
        let (handle, had) = self.handle.exchange(with.handle);
        let place = AuditorPlace {
            is_open: with.is_open,
            handle,
        };
        (
            place,
            Held {
                is_open: self.is_open,
                handle: had,
            },
        )
    }
}
