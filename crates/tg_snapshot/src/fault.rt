//! Why lists are no snapshot.
use thiserror::Error;

/// Why lists are no snapshot. What was handed in is dropped. Places are counted from 0.
#[derive(Clone, Copy, PartialEq, Eq, Debug, Error)]
pub enum SnapshotFault {
    /// The number of vertices that were made is 0.
    #[error("the number of vertices made is 0: it is at least 1")]
    NoneMade,
    /// Fewer vertices may be made than were made, or more than 2^48.
    #[error("the limit is below the number of vertices made, or above 2^48")]
    BadLimit,
    /// The first vertex whose name isn't above the one before it and below the number made, or whose state doesn't fit
    /// its law.
    #[error("vertex {at} needs a name above the one before it and below the number of vertices made, and a state that fits its law")]
    BadVertex { at: u64 },
    /// The first subject that isn't above the one before it, that is no vertex of the snapshot, or that is the 65th.
    #[error("subject {at} needs a name above the one before it that a vertex has, and at most 64 are active")]
    BadSubject { at: u64 },
    /// The first edge that doesn't come after the edge before it, by its first end and then by its second. Or the first
    /// edge that joins a vertex with itself, or has an end that is no vertex of the snapshot.
    #[error("edge {at} needs two different ends that are vertices, which come after those of the edge before it")]
    BadEdge { at: u64 },
}
