//! The functions that C calls on a view.
ghost use Rattle.std.specs.Prelude.{◌≡◌, false, true, if◌then◌else◌};
ghost use Rattle.tg_c.specs.Statuses.{TellsNumber, status_of};
ghost use Rattle.tg_c.specs.View.{FollowsInPlace, Glances, GlancesAsIf, OpensView};

use std::alloc::Global;
use tg_c::forms::{EdgeIn, QuestionIn};
use tg_c::held::Holder;
use tg_c::place::StorePlace;
use tg_c::refusal::CallRefusal;
use tg_c::tell::{DONE, tell_number};
use tg_c::view::calls;
use tg_c::view::place::ViewPlace;

/// Opens a view in the place, of the vertices that the workers of the store reach. The silent workers take no turns,
/// and the edges of `as_if` are supposed to be there too. The store is as it was, and its journal gets no entry. A
/// refused place is as it was.
#[unsafe(no_mangle)]
pub extern "C" fn tg_view_open(
    alloc: Global,
    store: &mut StorePlace,
    silent: &[u64],
    as_if: &[EdgeIn],
    view: &mut ViewPlace,
) -> u32
    ensures { OpensView store.old store.new silent.now as_if.now view.old view.new result }
{
    match calls::open_view(alloc, store, silent, as_if, view.is_open) {
        Ok(opened) => {
            view.put(opened);
            DONE
        }
        Err(refusal) => refusal.status(),
    }
}

/// Asks a view whether x could ever come to hold a right over y. The answer goes to `kind`. It is 0 for never, 4 if x
/// isn't reached, and 6 if the answer isn't known. Takes no memory.
#[unsafe(no_mangle)]
pub extern "C" fn tg_view_could(
    alloc: Global,
    view: &mut ViewPlace,
    x: u64,
    right: u64,
    y: u64,
    kind: &mut u64,
) -> u32
    ensures { Glances view.old view.new x right y (TellsNumber result kind.old kind.new) }
{
    tell_number(calls::ask_view(alloc, view, x, right, y), kind)
}

/// Answers as [`tg_view_could`] does, as if the edges of `as_if` were there too. Each edge has to join two vertices
/// that workers reached at the opening. The answer isn't known if an edge joins two parts of the view.
#[unsafe(no_mangle)]
pub extern "C" fn tg_view_could_as_if(
    alloc: Global,
    view: &mut ViewPlace,
    as_if: &[EdgeIn],
    x: u64,
    right: u64,
    y: u64,
    kind: &mut u64,
) -> u32
    ensures { GlancesAsIf view.old view.new as_if.now x right y kind.old kind.new result }
{
    let asked = QuestionIn { x, right, y };
    match calls::ask_view_as_if(alloc, view, as_if, asked) {
        Ok(glimpse) => {
            *kind = glimpse.kind();
            DONE
        }
        Err(refusal) => refusal.status(),
    }
}

/// Has a view go on with an edge that came since its opening, such as the edge of a grant. `is_followed` gets 1 if it
/// does. It gets 0 if the edge joins two parts of the view, which stays as it was.
#[unsafe(no_mangle)]
pub extern "C" fn tg_view_follow(
    alloc: Global,
    view: &mut ViewPlace,
    edge: &EdgeIn,
    is_followed: &mut u64,
) -> u32
    ensures { FollowsInPlace view.old view.new edge.now is_followed.old is_followed.new result }
{
    match calls::follow(alloc, view, edge) {
        Ok(followed) => {
            *is_followed = flag(followed);
            DONE
        }
        Err(refusal) => refusal.status(),
    }
}

// 1 if it is so, and else 0.
fn flag(is: bool) -> u64
    ensures { result ≡ (if is then 1 else 0) }
{
    if is { 1 } else { 0 }
}

/// Gives back all memory of a view. The place is closed then, whether it was open or not.
#[unsafe(no_mangle)]
pub extern "C" fn tg_view_close(alloc: Global, view: &mut ViewPlace) -> u32
    ensures closed { view.new.is_open ≡ false }
    ensures done { view.old.is_open ≡ true → result ≡ 0 }
    ensures not_open { view.old.is_open ≡ false → result ≡ status_of CallRefusal.NotOpen }
{
    match view.take(alloc) {
        Some(_sight) => DONE,
        None => CallRefusal::NotOpen.status(),
    }
}
