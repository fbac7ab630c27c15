//! Replies, denials and labels, shown as scripts write them, and faults that no program meets.
use crate::opened::cells;
use std::alloc::{AllocError, Global};
use std::fmt::Display;
use tg_helpers::HelpersFault;
use tg_journal::{AuditFault, PartFault};
use tg_model::{
    Cause, Denial, Edge, EdgeList, Graph, ModelFault, Opening, OpeningFault, Reply, Rule,
};
use tg_payload::values_of;
use tg_rights::{Label, Right, Rights};
use tg_store::{ApplyFault, CreateFault, OpenFault, RoomFault, StoreAuditFault};
use tg_text::AsText;
use tg_threads::RaceFault;

// Whether it is shown with this text.
pub(crate) fn is_shown<T: Display + Drop>(alloc: Global, shown: T, wanted: &str) -> bool {
    match format!(in alloc; "{shown}") {
        Ok(text) => text.as_str() == wanted,
        Err(_) => false,
    }
}

// A listing of one edge to 3, with these rights.
fn listing(alloc: Global, letters: &str) -> Result<Reply, AllocError> {
    let mut edges = Vec::new(alloc);
    if let Some(label) = Label::read_text(letters.as_bytes()) {
        edges.push((3, label))?;
    }
    Ok(Reply::Edges(EdgeList::from_vec(edges)))
}

// Whether the listing is shown as it should be.
fn is_listing_shown(alloc: Global) -> bool {
    match listing(alloc, "rg") {
        Ok(reply) => is_shown(alloc, AsText(&reply), "ok 3:rg"),
        Err(_) => false,
    }
}

fn missing() -> Denial {
    Denial {
        rule: Rule::Write,
        cause: Cause::Missing {
            from: 1,
            to: 2,
            rights: Rights::of(Right::W),
        },
    }
}

#[test]
fn replies_and_denials(rt: HostRuntime) {
    let denied = is_shown(rt.alloc(), AsText(&missing()), "denied write 1->2 w");
    assert!(rt; [is_listing_shown(rt.alloc()), denied] == [true; 2]);
}

// Whether a label with the right to write alone is shown so.
fn is_label_shown(alloc: Global) -> bool {
    match Label::new(Rights::of(Right::W)) {
        Some(label) => is_shown(alloc, label, "w"),
        None => false,
    }
}

#[test]
fn labels(rt: HostRuntime) {
    assert!(rt; is_label_shown(rt.alloc()));
}

// Why a race ends that is what it is proved never to be, and an audit that finds an entry.
fn are_faults_shown(alloc: Global) -> [bool; 3] {
    [
        is_shown(alloc, RaceFault::ReceiptMismatch, "receipt mismatch"),
        is_shown(alloc, RaceFault::AuditFailed, "audit failed"),
        is_shown(
            alloc,
            AuditFault::BadEntry { at: 3 },
            "entry 3 is not legal",
        ),
    ]
}

#[test]
fn faults_that_no_row_meets(rt: HostRuntime) {
    assert!(rt; are_faults_shown(rt.alloc()) == [true; 3]);
}

// Why a part is refused, and why an audit stops in it.
fn are_faults_of_parts_shown(alloc: Global) -> [bool; 3] {
    let bad_place = PartFault::BadPlace {
        due: 1,
        start: 2,
        end: 3,
    };
    [
        is_shown(
            alloc,
            bad_place,
            "the part has entries 2..3, and entry 1 comes next: feed the part that has it",
        ),
        is_shown(
            alloc,
            PartFault::BadEntry { at: 4 },
            "entry 4 is not legal: the journal was altered, or is of another opening",
        ),
        is_shown(
            alloc,
            PartFault::OutOfMemory { at: 5 },
            "out of memory at entry 5: free memory, and feed the same part again",
        ),
    ]
}

#[test]
fn faults_of_parts(rt: HostRuntime) {
    assert!(rt; are_faults_of_parts_shown(rt.alloc()) == [true; 3]);
}

// Why a heap has no room, why helpers are refused, and why a plain graph serves nobody.
fn are_refusals_shown(alloc: Global) -> [bool; 7] {
    [
        is_shown(alloc, RoomFault::OutOfMemory, "out of memory"),
        is_shown(alloc, RoomFault::HeapFull, "heap full"),
        is_shown(alloc, HelpersFault::OutOfMemory, "out of memory"),
        is_shown(alloc, HelpersFault::HeapFull, "heap full"),
        is_shown(alloc, HelpersFault::NoThread, "no thread"),
        is_shown(alloc, ModelFault::OutOfMemory, "out of memory"),
        is_shown(alloc, ModelFault::NoSuchWorker, "no such worker"),
    ]
}

#[test]
fn refusals_that_no_program_shows(rt: HostRuntime) {
    assert!(rt; are_refusals_shown(rt.alloc()) == [true; 7]);
}

// Why a store is not opened, and why its opening isn't made.
fn are_openings_refused(alloc: Global) -> [bool; 7] {
    let edge = "edge 3 joins a vertex with itself or has an end that is no worker";
    let value = "value 3 does not fit its law, or is one too many or too few";
    let draft = "draft 3 does not have the opening's value, or is one too many or too few";
    let workers = "the number of workers is not from 1 to 64";
    [
        is_shown(alloc, OpeningFault::BadWorkers, workers),
        is_shown(
            alloc,
            OpeningFault::BadLimits,
            "a limit is out of its range",
        ),
        is_shown(alloc, OpeningFault::BadEdge { at: 3 }, edge),
        is_shown(alloc, OpeningFault::BadValues { at: 3 }, value),
        is_shown(alloc, OpenFault::PayloadMismatch { at: 3 }, draft),
        is_shown(alloc, OpenFault::OutOfMemory, "out of memory"),
        is_shown(alloc, OpenFault::HeapFull, "heap full"),
    ]
}

// Why a store refuses a command, a vertex and an audit.
fn are_calls_refused(alloc: Global) -> [bool; 11] {
    [
        is_shown(alloc, ApplyFault::NoSuchWorker, "no such worker"),
        is_shown(alloc, ApplyFault::OutOfMemory, "out of memory"),
        is_shown(alloc, ApplyFault::HeapFull, "heap full"),
        is_shown(alloc, CreateFault::NoSuchWorker, "no such worker"),
        is_shown(
            alloc,
            CreateFault::VerticesFull,
            "no more vertices may be made",
        ),
        is_shown(
            alloc,
            CreateFault::WorkersFull,
            "no more subjects may be active",
        ),
        is_shown(alloc, CreateFault::OutOfMemory, "out of memory"),
        is_shown(alloc, CreateFault::HeapFull, "heap full"),
        is_shown(alloc, StoreAuditFault::NotWhole, "entries were given up"),
        is_shown(alloc, StoreAuditFault::OutOfMemory, "out of memory"),
        is_shown(
            alloc,
            StoreAuditFault::BadEntry { at: 3 },
            "entry 3 is not legal",
        ),
    ]
}

#[test]
fn refusals_of_a_store(rt: HostRuntime) {
    assert!(rt; are_openings_refused(rt.alloc()) == [true; 7]);
    assert!(rt; are_calls_refused(rt.alloc()) == [true; 11]);
}

// The plain graph of two workers with cells, of whom one may read the other.
fn graph_of_one_edge(alloc: Global, label: Label) -> Option<Graph> {
    let cells = cells(alloc, 2)?;
    let values = values_of(alloc, &cells).ok()?;
    let edge = Edge {
        from: 0,
        to: 1,
        label,
    };
    let edges = vec![in alloc; edge].ok()?;
    let opening = Opening::new(2, edges, values, 2).ok()?;
    Graph::open(alloc, &opening).ok()
}

// How many edges a picture of that graph has, and how many with one more that is supposed.
fn edges_shown(alloc: Global) -> Option<[usize; 2]> {
    let label = Label::read_text(b"r")?;
    let picture = graph_of_one_edge(alloc, label)?.picture(alloc).ok()?;
    let before = picture.edges().len();
    let supposed = picture.with(1, 0, label).ok()?;
    Some([before, supposed.edges().len()])
}

#[test]
fn each_edge_of_a_picture_stands_once(rt: HostRuntime) {
    assert!(rt; edges_shown(rt.alloc()) == Some([1, 2]));
}
