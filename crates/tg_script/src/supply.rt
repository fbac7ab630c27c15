//! The stock of a run. It has the payloads for the vertices that its script makes.
ghost use Rattle.std.specs.Prelude.{◌≡◌, ◌++◌, ◌∷◌, [], None, IfNone};
ghost use Rattle.std.specs.Option.{option_to_list};
ghost use Rattle.tg_script.specs.Inner.Supply.{values_left};

use tg_payload::{Draft, Payload};

/// The payloads that are left. One that was taken can be put back in front.
#[derive(Drop)]
pub(crate) struct Supply<P: Payload> {
    /// A payload that was put back.
    pub(crate) front: Option<Draft<P>>,
    /// The payloads after it, in reverse order. The last one is taken first, so that the list can give its memory back
    /// as it is used up.
    pub(crate) rest: Vec<Draft<P>>,
}

impl<P: Payload> Supply<P> {
    /// All of the payloads are left.
    pub(crate) fn new(drafts: Vec<Draft<P>>) -> Supply<P>
        ensures { values_left result ≡ drafts.items }
    {
        let mut rest = drafts;
        rest.reverse();
        Supply { front: None, rest }
    }

    /// Takes the first payload.
    pub(crate) fn take(&mut self) -> Option<Draft<P>>
        ensures values { values_left self.old ≡ option_to_list result ++ values_left self.new }
        ensures empty { IfNone result (values_left self.old ≡ []) }
        ensures room { self.new.front ≡ None }
    {
        if self.front.is_none() {
            return take_last(&mut self.rest);
        }
        self.front.take()
    }

    /// Puts a payload that was taken back in front.
    pub(crate) fn put_back(&mut self, draft: Draft<P>)
        requires { self.old.front ≡ None }
        ensures { values_left self.new ≡ draft ∷ values_left self.old }
    {
        self.front = Some(draft);
    }
}

// Takes the last payload. Where less than half of the list's room is used then, the rest of it is given back, if the
// allocator can.
fn take_last<P: Payload>(list: &mut Vec<Draft<P>>) -> Option<Draft<P>>
    ensures items { list.old.items ≡ list.new.items ++ option_to_list result }
    ensures empty { IfNone result (list.old.items ≡ []) }
{
    let last = list.pop();
    if list.len() < list.capacity() / 2 {
        list.shrink_to_fit();
    }
    last
}
