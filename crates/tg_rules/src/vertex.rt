//! Vertices of a heap, and those that a command is about.
ghost use Rattle.std.specs.Prelude.{◌≡◌};
ghost use Rattle.tg_graph.specs.Heap.{IsActive};
ghost use Rattle.tg_rules.specs.Verdict.{HasSubject, HasVertex};

use tg_graph::Heap;
use tg_payload::Payload;
use tg_subjects::Subject;
use tg_word::Place;

/// A vertex of a heap. It has its name, and the place of its object.
#[derive(Clone, Copy, PartialEq, Eq, Debug)]
pub(crate) struct Vertex {
    pub(crate) name: u64,
    pub(crate) place: Place,
}

/// The active subject with a name.
#[inline(always)]
pub(crate) fn subject_of<P: Payload>(heap: &Heap<P>, name: u64) -> Subject
    requires { IsActive heap.now name }
    ensures there { HasSubject heap.now result }
    ensures name { result.name ≡ name }
{
    match heap.subject(name) {
        Some(subject) => subject,
        None => unreachable!(),
    }
}

/// The vertex of a subject.
#[inline(always)]
pub(crate) fn vertex_of(subject: Subject) -> Vertex
    ensures { result ≡ record { name = subject.name; place = subject.place } }
{
    Vertex {
        name: subject.name,
        place: subject.place,
    }
}

/// The vertices that a command is about, as its checks met them.
#[derive(Clone, Copy, PartialEq, Eq, Debug)]
pub struct Parties {
    // The vertex whose row gets or loses rights, or is listed.
    pub(crate) from: Vertex,
    // The vertex that the command names last, or the subject's own where it names none.
    pub(crate) target: Vertex,
}
