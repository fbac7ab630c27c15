//! Answers that no clause of `tg_could` asks for. `Perhaps` of a view, a view that doesn't go on, and a host in the
//! answer of `needs` promise nothing. So a body that gives no other answer keeps every contract.
use std::alloc::{AllocError, Global};
use tg_could::{AnswerKind, Breach, Chance, Question, Scene, View, first_breach, needs};
use tg_model::{Edge, Picture};
use tg_rights::{Label, Right, Rights};

// The object that the last subject holds rights over.
const DOCUMENT: u64 = 10;

// All rights.
const RIGHTS: &[Right] = &[
    Right::R,
    Right::W,
    Right::T,
    Right::G,
    Right::A,
    Right::L,
    Right::U,
    Right::V,
];

// Ten subjects and the document, over which subject 9 has all rights. The edge `from`, `to` is there too if it has
// rights.
fn picture(alloc: Global, from: u64, to: u64, rights: Rights) -> Result<Picture, AllocError> {
    let mut subjects = Vec::new(alloc);
    for name in 0..DOCUMENT {
        subjects.push(name)?;
    }
    let mut edges = Vec::new(alloc);
    add(&mut edges, from, to, rights)?;
    for right in RIGHTS {
        add(&mut edges, 9, DOCUMENT, Rights::of(*right))?;
    }
    Ok(Picture::new(subjects, edges, DOCUMENT + 1, 100))
}

// Adds an edge, if it has rights.
fn add(edges: &mut Vec<Edge>, from: u64, to: u64, rights: Rights) -> Result<(), AllocError> {
    if let Some(label) = Label::new(rights) {
        edges.push(Edge { from, to, label })?;
    }
    Ok(())
}

// Whether x could come to hold a right over the document.
fn of_document(x: u64, right: Right) -> Question {
    Question {
        x,
        right,
        y: DOCUMENT,
    }
}

// Whether a view answers for each right over the document that subject 0 never holds it, and that subject 9 may.
fn is_told_by_view(alloc: Global) -> Result<bool, AllocError> {
    let picture = picture(alloc, 0, 1, Rights::of(Right::T))?;
    let scene = Scene {
        picture: &picture,
        silent: &[],
    };
    let view = View::open(alloc, &scene)?;
    let mut is_told = true;
    for right in RIGHTS {
        is_told &= view.could(of_document(0, *right)) == Chance::Never;
        is_told &= view.could(of_document(9, *right)) == Chance::Perhaps;
    }
    Ok(is_told)
}

#[test]
fn a_view_where_ten_act(rt: HostRuntime) {
    assert!(rt; is_told_by_view(rt.alloc()) == Ok(true));
}

// One edge.
fn edge(alloc: Global, from: u64, to: u64, right: Right) -> Result<Vec<Edge>, AllocError> {
    let mut edges = Vec::new(alloc);
    add(&mut edges, from, to, Rights::of(right))?;
    Ok(edges)
}

// Whether a view follows each of these edges.
fn follows(view: &mut View, edges: &[Edge]) -> Result<bool, AllocError> {
    for edge in edges {
        if !view.follow(*edge)? {
            return Ok(false);
        }
    }
    Ok(true)
}

// What a view answers of subjects 0 and 5 with these edges. Each may or may not come to read the document.
fn chances(view: &View, supposed: &[Edge]) -> (Chance, Chance) {
    (
        view.could_as_if(supposed, of_document(0, Right::R)),
        view.could_as_if(supposed, of_document(5, Right::R)),
    )
}

// Whether a view is asked with an edge, and follows it, if it joins no two islands and both ends were made.
fn is_asked_and_goes_on(alloc: Global) -> Result<bool, AllocError> {
    let picture = picture(alloc, 0, 1, Rights::of(Right::T))?;
    let scene = Scene {
        picture: &picture,
        silent: &[],
    };
    let mut view = View::open(alloc, &scene)?;
    let read = edge(alloc, 5, DOCUMENT, Right::R)?;
    let bridge = edge(alloc, 2, 5, Right::T)?;
    let unmade = edge(alloc, 5, DOCUMENT + 1, Right::R)?;
    let mut is_right = chances(&view, read.as_slice()) == (Chance::Never, Chance::Perhaps);
    is_right &= chances(&view, bridge.as_slice()) == (Chance::Perhaps, Chance::Perhaps);
    is_right &= chances(&view, unmade.as_slice()) == (Chance::Perhaps, Chance::Perhaps);
    is_right &= !follows(&mut view, bridge.as_slice())?;
    is_right &= !follows(&mut view, unmade.as_slice())?;
    is_right &= chances(&view, &[]) == (Chance::Never, Chance::Never);
    is_right &= follows(&mut view, read.as_slice())?;
    is_right &= chances(&view, &[]) == (Chance::Never, Chance::Perhaps);
    Ok(is_right)
}

#[test]
fn a_view_goes_on(rt: HostRuntime) {
    assert!(rt; is_asked_and_goes_on(rt.alloc()) == Ok(true));
}

// The first breach of a policy about these subjects, which may not come to read the document.
fn breach_of(alloc: Global, names: &[u64]) -> Result<Option<Breach>, AllocError> {
    let picture = picture(alloc, 0, 1, Rights::of(Right::T))?;
    let scene = Scene {
        picture: &picture,
        silent: &[],
    };
    let mut questions = Vec::new(alloc);
    for name in names {
        questions.push(of_document(*name, Right::R))?;
    }
    first_breach(alloc, &scene, questions.as_slice())
}

// Whether a policy is kept that leaves out subject 9, which reads the document, and another is broken by it.
fn is_broken_at_nine(alloc: Global) -> Result<bool, AllocError> {
    if breach_of(alloc, &[0, 1, 2])?.is_some() {
        return Ok(false);
    }
    match breach_of(alloc, &[0, 9, 1, 9])? {
        Some(breach) => Ok(breach.place == 1 && breach.answer.kind() == AnswerKind::Could),
        None => Ok(false),
    }
}

#[test]
fn the_first_breach_of_a_policy(rt: HostRuntime) {
    assert!(rt; is_broken_at_nine(rt.alloc()) == Ok(true));
}

// Whose turns would be enough for subject 0 to read the document, when all others are silent.
fn enough(alloc: Global) -> Result<Vec<u64>, AllocError> {
    let picture = picture(alloc, 9, 0, Rights::of(Right::G))?;
    let silent = [1, 2, 3, 4, 5, 6, 7, 8, 9];
    let scene = Scene {
        picture: &picture,
        silent: &silent,
    };
    needs(alloc, &scene, of_document(0, Right::R))
}

// Whether the only name is that of subject 9.
fn is_one_enough(alloc: Global) -> bool {
    match enough(alloc) {
        Ok(names) => names.as_slice() == [9].as_slice(),
        Err(_) => false,
    }
}

#[test]
fn one_of_nine_silent_is_enough(rt: HostRuntime) {
    assert!(rt; is_one_enough(rt.alloc()));
}
