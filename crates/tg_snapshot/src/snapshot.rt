//! Snapshots.
ghost use Rattle.std.specs.Prelude.{◌≡◌};
ghost use Rattle.tg_snapshot.specs.Faults.{ChecksForm};
ghost use Rattle.tg_snapshot.specs.Snapshot.{IsSnapshot};

use crate::check::fault_of;
use crate::fault::SnapshotFault;
use crate::vertex::ShownVertex;
use std::marker::Model;
use tg_model::Picture;

/// What is kept of a graph to go on from it. It has the active subjects, each vertex that they reach with what it
/// stores, and the edges of these vertices. It also has how many entries were made before. Contracts see it as the
/// record of these, `Saved`, and speak of the graph that it shows, `graph_shown`.
#[derive(Drop)]
pub struct Snapshot {
    picture: Picture,
    vertices: Vec<ShownVertex>,
    entries: u64,
}

impl Model for Snapshot {
    ghost use Rattle.tg_snapshot.specs.Snapshot.{Saved, IsSnapshot};

    ghost Value = { Saved };

    ghost view = { λ a. record { picture = a.picture; vertices = a.vertices.items; entries = a.entries } };

    ghost invariant = { λ a. IsSnapshot (record { picture = a.picture; vertices = a.vertices.items; entries = a.entries }) };
}

impl Snapshot {
    /// The snapshot of these lists. All three rise. Vertices and subjects rise by name, and edges by the end that holds
    /// and then by the other. So one graph has one snapshot. A subject and both ends of an edge have a vertex. Each
    /// name is below the number of vertices made, which is at least 1 and may be above all names. If a list is not as
    /// asked, its first fault is returned, and what was handed in is dropped. Takes no memory.
    pub fn new(
        picture: Picture,
        vertices: Vec<ShownVertex>,
        entries: u64,
    ) -> Result<Snapshot, SnapshotFault>
        ensures { ChecksForm (record { picture = picture; vertices = vertices.items; entries = entries }) result }
    {
        if let Some(fault) = fault_of(&picture, vertices.as_slice()) {
            return Err(fault);
        }
        Ok(Snapshot {
            picture,
            vertices,
            entries,
        })
    }

    /// The active subjects, the edges that they reach, how many vertices were made, and the most that may be.
    pub fn picture(&self) -> &Picture
        ensures picture { result.now ≡ self.now.picture }
        ensures accepted { IsSnapshot self.now }
    {
        &self.picture
    }

    /// The vertices that subjects reach, by rising name.
    pub fn vertices(&self) -> &[ShownVertex]
        ensures { result.now ≡ self.now.vertices }
    {
        self.vertices.as_slice()
    }

    /// How many entries were made before, which is the place of the next.
    pub fn entries(&self) -> u64
        ensures { result ≡ self.now.entries }
    {
        self.entries
    }
}
