//! Where a name is in the list of vertices of a snapshot, and what is stored there.
ghost use Rattle.std.specs.Prelude.{◌≡◌, EachIndex, IfOk, IsTrue, MatchOption};
ghost use Rattle.tg_model.specs.Law.{Fits};
ghost use Rattle.tg_model.specs.Opened.{ValueFits};
ghost use Rattle.tg_snapshot.specs.Snapshot.{ComesAfter, NamePrecedes, ShowsName};
ghost use Rattle.tg_rebuild.specs.Inner.Lines.{IsLineOf};

use crate::maker::Maker;
use std::alloc::{AllocError, Global};
use tg_model::Law;
use tg_payload::{Draft, Payload};
use tg_snapshot::ShownVertex;

/// The place of the vertex with a name in the list, if it is shown.
pub(crate) fn line_of(vertices: &[ShownVertex], name: u64) -> Option<usize>
    requires { EachIndex vertices.now (ComesAfter NamePrecedes vertices.now) }
    ensures { MatchOption result (¬ ShowsName vertices.now name) (IsLineOf vertices.now name) }
{
    vertices
        .binary_search_by_key(&name, |vertex| vertex.name)
        .ok()
}

/// The place of the vertex with a name in the list, which shows it.
pub(crate) fn line_shown(vertices: &[ShownVertex], name: u64) -> usize
    requires rise { EachIndex vertices.now (ComesAfter NamePrecedes vertices.now) }
    requires shown { ShowsName vertices.now name }
    ensures { IsLineOf vertices.now name result }
{
    match line_of(vertices, name) {
        Some(at) => at,
        None => unreachable!(),
    }
}

/// The place of the vertex with a name in the list, which shows it. A vertex that comes soon after the place `near` is
/// found in few steps.
pub(crate) fn line_from(vertices: &[ShownVertex], near: usize, name: u64) -> usize
    requires rise { EachIndex vertices.now (ComesAfter NamePrecedes vertices.now) }
    requires shown { ShowsName vertices.now name }
    ensures { IsLineOf vertices.now name result }
{
    let guess = guess_from(vertices, near, name);
    if is_line(vertices, guess, name) {
        return guess;
    }
    line_shown(vertices, name)
}

// Where the vertex with a name may be. The place is right if the vertex comes after the place `near`, or is there.
fn guess_from(vertices: &[ShownVertex], near: usize, name: u64) -> usize {
    let rest = match vertices.get(near..) {
        Some(rest) => rest,
        None => return near,
    };
    // Names rise, so there are at most as many vertices between as there are names.
    let ahead = match rest.first() {
        Some(first) => name.saturating_sub(first.name),
        None => return near,
    };
    let soon = match rest.get(..=ahead as usize) {
        Some(soon) => soon,
        None => rest,
    };
    match soon.binary_search_by_key(&name, |vertex| vertex.name) {
        Ok(at) => near.wrapping_add(at),
        Err(_) => near,
    }
}

// Whether the vertex at a place has a name.
fn is_line(vertices: &[ShownVertex], at: usize, name: u64) -> bool
    ensures { IsTrue result → IsLineOf vertices.now name at }
{
    match vertices.get(at) {
        Some(vertex) => vertex.name == name,
        None => false,
    }
}

/// The draft of a vertex that is shown.
pub(crate) fn draft_of<P: Payload, M: Maker<P>>(
    alloc: Global,
    maker: &mut M,
    vertex: &ShownVertex,
) -> Result<Draft<P>, AllocError>
    requires { ValueFits vertex.now.value }
    ensures { IfOk result (λ draft. draft ≡ vertex.now.value) }
{
    make_draft(
        alloc,
        maker,
        Some(vertex.name),
        vertex.value.law,
        vertex.value.state.as_slice(),
    )
}

/// The draft of a payload with this law and this state.
pub(crate) fn make_draft<P: Payload, M: Maker<P>>(
    alloc: Global,
    maker: &mut M,
    name: Option<u64>,
    law: Law,
    state: &[u64],
) -> Result<Draft<P>, AllocError>
    requires { Fits law state.now }
    ensures { IfOk result (λ draft. draft ≡ record { law = law; state = state.now }) }
{
    let payload = maker.make(name, law, state)?;
    match Draft::new(alloc, payload) {
        Ok(draft) => Ok(draft),
        Err(_) => Err(AllocError),
    }
}
