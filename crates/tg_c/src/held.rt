//! A box that C holds, or none, in a struct of C.
//!
//! An exported function takes no struct with a type parameter. Therefore each kind of thing that C holds has two
//! structs of its own. They are a handle of 8 bytes and a place of 16 bytes, which has the handle (`place`,
//! `auditor::place`, `saved::place`, `view::place`, `answer`). The two structs do one thing. They exchange the value
//! that they hold for the value that they are given. All other code is here, once for all kinds.
ghost use Rattle.std.specs.Prelude.{◌≡◌, Bool, true, false, Some};
ghost use Rattle.std.specs.Fn.{FnOnceReturnsAtMut};
ghost use Rattle.std.specs.Option.{is_some};
ghost use Rattle.tg_c.specs.Inner.Places.{Holds, IsAskedOpen, IsBoxOf, IsPutBack, IsTakenOut};

use crate::handle::Handle;
use crate::refusal::CallRefusal;
use core::mem::replace_with;
use std::alloc::Global;

/// A box, or none, as a place of C has it. The handle is open exactly while the flag is set.
#[derive(Drop)]
pub struct Held<T> {
    /// Whether there is a box.
    pub is_open: bool,
    /// The handle of the box, or of none.
    pub handle: Handle<T, Global>,
    pub ghost agrees: { is_some handle.opened ≡ is_open },
}

impl<T: Drop> Held<T> {
    /// No box.
    pub fn none(alloc: Global) -> Held<T>
        ensures { result.is_open ≡ false }
    {
        Held {
            is_open: false,
            handle: Handle::closed(alloc),
        }
    }

    /// A box. Takes no memory.
    pub fn of(opened: Box<T>) -> Held<T>
        ensures { (result.is_open ≡ true) × IsBoxOf result.handle.opened (Some opened) }
    {
        Held {
            is_open: true,
            handle: Handle::of(opened),
        }
    }

    /// The box, if there is one.
    pub fn into_box(self) -> Option<Box<T>>
        ensures { IsBoxOf self.handle.opened result }
    {
        let Held { is_open, handle } = self;
        if is_open {
            Some(handle.into_box())
        } else {
            None
        }
    }
}

/// A place of 16 bytes in which C holds a box, or none. A place with all bytes zero is closed. The bound asks that the
/// value may go to another thread, because C may hand an open place to one.
pub trait Holder<T: Drop + Send> {
    // Whether there is a box, and the value of that box.
    ghost is_open: { Self → Bool };

    ghost opened: { Self → T };

    /// Returns the place with this box, or none, and the box that the place held. Takes no memory.
    fn exchange(self, with: Held<T>) -> (Self, Held<T>)
        ensures { Holds (is_open self) (opened self) result.1.handle.opened × Holds (is_open result.0) (opened result.0) with.handle.opened };

    /// Takes the box out, if there is one, and leaves the place closed. Takes no memory.
    final fn take(&mut self, alloc: Global) -> Option<Box<T>>
        ensures { IsTakenOut (is_open self.old) (opened self.old) (is_open self.new) result }
    {
        replace_with(
            self,
            alloc,
            |place, alloc| place.exchange(Held::none(alloc)),
        )
        .into_box()
    }

    /// Calls a function on the value that the place holds, and returns its answer. An open place stays open. A closed
    /// place is refused with `NotOpen`, and stays closed. Takes no memory.
    final fn with_open<R, F: FnOnce(&mut T) -> R>(
        &mut self,
        alloc: Global,
        ask: F,
    ) -> Result<R, CallRefusal>
        requires { F.IsAlwaysCallable ask }
        ensures { IsAskedOpen (is_open self.old) (is_open self.new) (λ answer. FnOnceReturnsAtMut F.FnOnce ask (opened self.old) answer (opened self.new)) result }
    {
        let Some(mut held) = self.take(alloc) else {
            return Err(CallRefusal::NotOpen);
        };
        let answer = ask(&mut held);
        self.put(held);
        Ok(answer)
    }

    /// Puts a box in the place, which is open then. A box that was there before is dropped. Takes no memory.
    final fn put(&mut self, given: Box<T>)
        ensures { IsPutBack given.value (is_open self.new) (opened self.new) }
    {
        let _ = replace_with(
            self,
            given,
            |place, given| place.exchange(Held::of(given)),
        ).into_box();
    }
}
