//! What a snapshot shows of a graph, and a graph from a snapshot.
ghost use Rattle.std.specs.Prelude.{◌≡◌, false, EachIndex, IfOk};
ghost use Rattle.std.specs.List.{All};
ghost use Rattle.tg_rights.specs.RightSet.{is_none_held};
ghost use Rattle.tg_snapshot.specs.Snapshot.{ComesAfter, EdgePrecedes, IsSnapshot, NamePrecedes};
ghost use Rattle.tg_journal.specs.Inner.Showing.{AreListsOf, graph_listed};

use crate::live::{LiveGraph, with_edges};
use crate::vertices::Vertices;
use std::alloc::{AllocError, Global};
use tg_model::Picture;
use tg_snapshot::{ShownVertex, Snapshot};

impl LiveGraph {
    ghost use Rattle.tg_journal.specs.Live.{graph_kept};

    /// The graph that the lists of a snapshot give. Fails only when out of memory.
    pub(crate) fn reopen(alloc: Global, snapshot: &Snapshot) -> Result<LiveGraph, AllocError>
        ensures listed { IfOk result (λ graph. graph_kept graph ≡ graph_listed snapshot.now) }
        ensures accepted { IsSnapshot snapshot.now }
    {
        let picture = snapshot.picture();
        let subjects = Vec::from_slice(alloc, picture.subjects())?;
        let bare = Vertices::from_shown(alloc, snapshot.vertices())?;
        let vertices = with_edges(alloc, bare, picture.edges())?;
        Ok(LiveGraph {
            alloc,
            subjects,
            made: picture.made(),
            max_vertices: picture.limit(),
            vertices,
            has_lost: false,
        })
    }

    /// What its subjects reach. It is a picture of it, and the vertices that store something. Fails only when out of
    /// memory.
    pub(crate) fn show(&self) -> Result<(Picture, Vec<ShownVertex>), AllocError>
        ensures lists { IfOk result (λ shown. AreListsOf (graph_kept self.now) shown.0 shown.1.items) }
        ensures names { IfOk result (λ shown. EachIndex shown.1.items (ComesAfter NamePrecedes shown.1.items)) }
        ensures ends { IfOk result (λ shown. EachIndex shown.0.edges (ComesAfter EdgePrecedes shown.0.edges)) }
        ensures held { IfOk result (λ shown. All (λ e. is_none_held e.label ≡ false) shown.0.edges) }
    {
        let names = self.reached()?;
        let subjects = Vec::from_slice(self.alloc, &self.subjects)?;
        let edges = self.vertices.edges(self.alloc, &names)?;
        let vertices = self.vertices.shown(self.alloc, &names)?;
        let picture = Picture::new(subjects, edges, self.made, self.max_vertices);
        Ok((picture, vertices))
    }
}
