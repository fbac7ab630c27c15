//! Whether lists are a snapshot.
ghost use Rattle.std.specs.Prelude.{◌≡◌, ◌↔◌, ◌<◌, length, EachIndex, IsTrue, MatchOption};
ghost use Rattle.tg_snapshot.specs.Faults.{IsFault, IsFirstBadLine};
ghost use Rattle.tg_snapshot.specs.Snapshot.{Saved, ComesAfter, NamePrecedes, EdgePrecedes, ShowsName, IsSnapshot, IsVertexLine, IsSubjectLine, IsEdgeLine, JoinsShown};

use crate::fault::SnapshotFault;
use crate::vertex::ShownVertex;
use tg_model::{Edge, MAX_LASTING_VERTICES, MAX_WORKERS, Picture};

/// The fault of a picture with vertices, if they are no snapshot.
pub(crate) fn fault_of(picture: &Picture, vertices: &[ShownVertex]) -> Option<SnapshotFault>
    ensures { (saved : Saved) → saved.picture ≡ picture.now → saved.vertices ≡ vertices.now →
        MatchOption result (IsSnapshot saved) (IsFault saved) }
{
    let made = picture.made();
    let limit = picture.limit();
    if made < 1 {
        return Some(SnapshotFault::NoneMade);
    }
    if limit < made || MAX_LASTING_VERTICES < limit {
        return Some(SnapshotFault::BadLimit);
    }
    if let Some(at) = first_bad_vertex(made, vertices) {
        return Some(SnapshotFault::BadVertex { at });
    }
    if let Some(at) = first_bad_subject(vertices, picture.subjects()) {
        return Some(SnapshotFault::BadSubject { at });
    }
    if let Some(at) = first_bad_edge(vertices, picture.edges()) {
        return Some(SnapshotFault::BadEdge { at });
    }
    None
}

// The place of the first vertex that isn't as asked.
fn first_bad_vertex(made: u64, vertices: &[ShownVertex]) -> Option<u64>
    ensures { MatchOption result (EachIndex vertices.now (IsVertexLine made vertices.now)) (IsFirstBadLine (IsVertexLine made vertices.now) vertices.now) }
{
    for at in 0..vertices.len() {
        if !is_vertex_line(made, vertices, at) {
            return Some(at as u64);
        }
    }
    None
}

// Whether the vertex at a place is as asked.
fn is_vertex_line(made: u64, vertices: &[ShownVertex], at: usize) -> bool
    requires { at < length vertices.now }
    ensures { IsTrue result ↔ IsVertexLine made vertices.now at }
{
    let vertex = &vertices[at];
    (at == 0 || vertices[at - 1].name < vertex.name) && vertex.name < made && vertex.value.fits()
}

// The place of the first subject that isn't as asked.
fn first_bad_subject(vertices: &[ShownVertex], subjects: &[u64]) -> Option<u64>
    requires { EachIndex vertices.now (ComesAfter NamePrecedes vertices.now) }
    ensures { MatchOption result (EachIndex subjects.now (IsSubjectLine vertices.now subjects.now)) (IsFirstBadLine (IsSubjectLine vertices.now subjects.now) subjects.now) }
{
    for at in 0..subjects.len() {
        if !is_subject_line(vertices, subjects, at) {
            return Some(at as u64);
        }
    }
    None
}

// Whether the subject at a place is as asked.
fn is_subject_line(vertices: &[ShownVertex], subjects: &[u64], at: usize) -> bool
    requires rise { EachIndex vertices.now (ComesAfter NamePrecedes vertices.now) }
    requires inside { at < length subjects.now }
    ensures { IsTrue result ↔ IsSubjectLine vertices.now subjects.now at }
{
    let subject = subjects[at];
    (at as u64) < MAX_WORKERS
        && (at == 0 || subjects[at - 1] < subject)
        && is_shown(vertices, subject)
}

// The place of the first edge that isn't as asked.
fn first_bad_edge(vertices: &[ShownVertex], edges: &[Edge]) -> Option<u64>
    requires { EachIndex vertices.now (ComesAfter NamePrecedes vertices.now) }
    ensures { MatchOption result (EachIndex edges.now (IsEdgeLine vertices.now edges.now)) (IsFirstBadLine (IsEdgeLine vertices.now edges.now) edges.now) }
{
    for at in 0..edges.len() {
        if !is_edge_line(vertices, edges, at) {
            return Some(at as u64);
        }
    }
    None
}

// Whether the edge at a place is as asked.
fn is_edge_line(vertices: &[ShownVertex], edges: &[Edge], at: usize) -> bool
    requires rise { EachIndex vertices.now (ComesAfter NamePrecedes vertices.now) }
    requires inside { at < length edges.now }
    ensures { IsTrue result ↔ IsEdgeLine vertices.now edges.now at }
{
    let edge = &edges[at];
    (at == 0 || precedes(&edges[at - 1], edge)) && joins_shown(vertices, edge)
}

// Whether an edge comes before another, by the end that holds and then by the other.
fn precedes(first: &Edge, second: &Edge) -> bool
    ensures { IsTrue result ↔ EdgePrecedes first.now second.now }
{
    first.from < second.from || (first.from == second.from && first.to < second.to)
}

// Whether an edge joins two different vertices that are shown.
fn joins_shown(vertices: &[ShownVertex], edge: &Edge) -> bool
    requires { EachIndex vertices.now (ComesAfter NamePrecedes vertices.now) }
    ensures { IsTrue result ↔ JoinsShown vertices.now edge.now }
{
    // No label is empty, as this call says.
    let _ = edge.label.rights();
    if edge.from == edge.to {
        return false;
    }
    is_shown(vertices, edge.from) && is_shown(vertices, edge.to)
}

// Whether a vertex of this name is shown.
fn is_shown(vertices: &[ShownVertex], name: u64) -> bool
    requires { EachIndex vertices.now (ComesAfter NamePrecedes vertices.now) }
    ensures { IsTrue result ↔ ShowsName vertices.now name }
{
    vertices
        .binary_search_by_key(&name, |vertex| vertex.name)
        .is_ok()
}
