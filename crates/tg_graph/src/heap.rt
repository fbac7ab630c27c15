//! The heap of one store.
ghost use Rattle.std.specs.Prelude.{◌==◌, ◌≡◌, ◌↔◌, ◌<◌, ℕ, Err, IfOk, IfErr, IfSome, IsSome, OnOk, OnErr, length, option_map, Some};
ghost use Rattle.std.specs.List.{All, Contains, IsDistinct};
ghost use Rattle.tg_model.specs.Graph.{HasEdge, listing_of};
ghost use Rattle.tg_model.specs.Rules.{state_of};
ghost use Rattle.tg_word.specs.Word.{nursery_space};
ghost use Rattle.tg_word.specs.declared.TheConstants.{MAX_NURSERIES};
ghost use Rattle.tg_word.specs.declared.Place.{Place as PlaceOf};
ghost use Rattle.tg_subjects.specs.Subjects.{IsSubjectNamed, without};
ghost use Rattle.tg_subjects.specs.declared.subject.Subject.{Subject as SubjectOf};
ghost use Rattle.tg_space.specs.SpaceList.{space_of};
ghost use Rattle.tg_space.specs.SpaceTable.{IsSpaceTable};
ghost use Rattle.tg_rows.specs.Content.{IsNamed};
ghost use Rattle.tg_graph.specs.Heap.{AddsEdgeFor, AddsRights, AddsSubject, AddsVertex, DropsRights, IsActive, IsObject, IsUnchangedHeap, IsWellFormed, KeepsIndexes, KeepsPlaces, MakesVertexFor, MayAddEdge, MayMake, TellsPlace, content_of, name_of, nursery_of, subject_names, WritesTo};
ghost use Rattle.tg_rows.specs.Graph.{rights_found};
ghost use Rattle.tg_rows.specs.Rows.{IsVertexAt};
ghost use Rattle.tg_rows.specs.Spots.{IsMadeInRow, IsPutInRow, IsTakenFromRow, LacksCellsFor};

use std::alloc::AllocError;
use std::marker::Model;
use tg_model::{EdgeList, Law, Numbers};
use tg_payload::{Draft, Payload, PayloadTable};
use tg_remember::Remembered;
use tg_rights::{Label, Rights};
use tg_rows::{Cells, Found, Gift, LongRows, NewVertex, VertexRefused};
use tg_space::{RoomFault, Spaces};
use tg_subjects::{Subject, Subjects};
use tg_word::Place;

/// No heap was opened. The drafts come back as they were, and the rest is dropped.
#[derive(Drop)]
pub struct HeapRefused<P: Payload> {
    pub drafts: Vec<Draft<P>>,
    pub why: RoomFault,
}

/// The cells of a graph, the payloads of its vertices, and its active subjects.
///
/// Contracts see a heap as a `HeapState`. They describe its content, which is the names of its vertices, the labels
/// between them and their values. Most calls name a vertex by the place of its object.
#[derive(Drop)]
pub struct Heap<P: Payload> {
    pub(crate) cells: Cells<P>,
    pub(crate) subjects: Subjects,
    pub(crate) rows: LongRows,
}

impl<P: Payload> Model for Heap<P> {
    ghost use Rattle.tg_graph.specs.Heap.{HeapState, IsWellFormed};
    ghost use Rattle.tg_rows.specs.Index.{AreIndexed, names_indexed};

    ghost Value = { HeapState };

    ghost view = { λ a. record { table = a.cells.spaces; payloads = a.cells.payloads; subjects = a.subjects; remembered = a.cells.remembered.places; indexed = names_indexed a.cells.spaces.spaces a.rows.entries } };

    ghost invariant = { λ a. IsWellFormed (record { table = a.cells.spaces; payloads = a.cells.payloads; subjects = a.subjects; remembered = a.cells.remembered.places; indexed = names_indexed a.cells.spaces.spaces a.rows.entries }) × AreIndexed a.cells.spaces.spaces a.cells.remembered.places a.rows.entries };
}

impl<P: Payload> Heap<P> {
    /// The active subjects, by rising name. The clauses of this call are true of every heap. Takes no memory.
    pub fn subjects(&self) -> &[Subject]
        ensures subjects { result.now ≡ self.now.subjects }
        ensures well_formed { IsWellFormed self.now }
        ensures table { IsSpaceTable self.now.table }
    {
        // It shows what holds of all spaces (`IsSpaceTable`).
        let _ = self.cells.spaces.blocks();
        self.subjects.as_slice()
    }

    /// The active subject with a name, if there is one. Takes no memory.
    #[inline(always)]
    pub fn subject(&self, name: u64) -> Option<Subject>
        ensures active { IsSome result ↔ IsActive self.now name }
        ensures there { IfSome result (IsSubjectNamed self.now.subjects name) }
        ensures nursery { IfSome result (λ subject. subject.nursery ≡ nursery_of self.now name) }
        ensures vertex { IfSome result (λ subject. IsVertexAt self.now.table.spaces name subject.place) }
    {
        self.subjects.find(name)
    }

    /// Where the object of an active subject is. Takes no memory.
    #[inline(always)]
    pub fn worker_place(&self, worker: u64) -> Place
        requires { IsActive self.now worker }
        ensures place { (subject : SubjectOf) × IsSubjectNamed self.now.subjects worker subject × (subject.place ≡ result) }
        ensures vertex { IsVertexAt self.now.table.spaces worker result }
    {
        self.active(worker).place
    }

    // The active subject with a name, which there is.
    #[inline(always)]
    pub(crate) fn active(&self, name: u64) -> Subject
        requires { IsActive self.now name }
        ensures there { IsSubjectNamed self.now.subjects name result }
        ensures nursery { result.nursery ≡ nursery_of self.now name }
        ensures vertex { IsVertexAt self.now.table.spaces name result.place }
    {
        match self.subject(name) {
            Some(subject) => subject,
            None => unreachable!(),
        }
    }

    /// How many vertices the heap has. No name is counted twice. Takes no memory.
    pub fn vertices(&self) -> u64
        ensures number { result ≡ length (content_of self.now).names }
        ensures once { IsDistinct (λ a b. a == b) (content_of self.now).names }
    {
        // It shows what holds of all spaces (`IsSpaceTable`).
        let _ = self.cells.spaces.blocks();
        self.cells.payloads.len()
    }

    /// The cells. Takes no memory.
    pub fn spaces(&self) -> &Spaces
        ensures { result.now ≡ self.now.table }
    {
        &self.cells.spaces
    }

    /// The cells of Old that are remembered, in the order in which they were noted. Takes no memory.
    pub fn remembered(&self) -> &Remembered
        ensures { result.now.places ≡ self.now.remembered }
    {
        &self.cells.remembered
    }

    /// The payloads, each under the key of its object. Takes no memory.
    pub fn payloads(&self) -> &PayloadTable<P>
        ensures { result.now ≡ self.now.payloads }
    {
        &self.cells.payloads
    }

    /// The rights of the vertex at a place over the vertex with a name, and where the target is. It is `None` exactly
    /// if there are no rights. It looks into the index of the row, or walks along a short one. It takes no memory.
    #[inline(always)]
    pub fn find_edge(&self, from: Place, name: u64) -> Option<Found>
        requires { IsObject self.now from }
        ensures rights { rights_found result ≡ (content_of self.now).label (name_of self.now from) name }
        ensures some { IsSome result ↔ HasEdge (content_of self.now).label (name_of self.now from) name }
        ensures place { IfSome result (λ found. IsVertexAt self.now.table.spaces name found.place) }
    {
        self.cells.find_edge(&self.rows, from, name)
    }

    /// The edges of the vertex at a place, by rising name of the target. Sorts once. Fails only when out of
    /// memory.
    #[inline(always)]
    pub fn row(&self, from: Place) -> Result<EdgeList, AllocError>
        requires { IsObject self.now from }
        ensures { IfOk result (λ edges. (n : ℕ) → All (λ x. x < n) (content_of self.now).names → edges ≡ listing_of (content_of self.now).label n (name_of self.now from)) }
    {
        self.cells.row(from)
    }

    /// The state of the vertex at a place. Fails only when out of memory.
    #[inline(always)]
    pub fn state(&self, at: Place) -> Result<Numbers, AllocError>
        requires { IsObject self.now at }
        ensures { IfOk result (λ state. state ≡ state_of ((content_of self.now).value (name_of self.now at))) }
    {
        self.cells.state(at)
    }

    /// Lends the payload of the vertex at a place. Takes no memory.
    pub fn payload(&self, at: Place) -> &P
        requires { IsObject self.now at }
        ensures { (content_of self.now).value (name_of self.now at) ≡ Some (P.value result.now) }
    {
        self.cells.payload(at)
    }

    /// The law of what the vertex at a place stores. Takes no memory.
    pub fn law(&self, at: Place) -> Law
        requires { IsObject self.now at }
        ensures { option_map (λ value. value.law) ((content_of self.now).value (name_of self.now at)) ≡ Some result }
    {
        self.cells.law(at)
    }

    /// Writes a number to the vertex at a place. No cell is changed. The call is refused only if memory runs out, and
    /// then nothing is changed.
    #[inline(always)]
    pub fn write(&mut self, at: Place, number: u64) -> Result<(), AllocError>
        requires { IsObject self.old at }
        ensures written { OnOk result (WritesTo self.old self.new at number) }
        ensures kept { OnOk result (KeepsPlaces self.old self.new) }
        ensures table { self.new.table ≡ self.old.table }
        ensures remembered { self.new.remembered ≡ self.old.remembered }
        ensures indexed { self.new.indexed ≡ self.old.indexed }
        ensures refused { OnErr result (self.new ≡ self.old) }
    {
        self.cells.write(at, number)
    }

    /// Gives the vertex at one place rights over the vertex at another. If the row has a reference to it, that
    /// reference gets the rights too. Otherwise the first empty place of the row gets a new reference. If there is no
    /// empty place, a new chunk gets it, from the nursery of the worker, which has to be an active subject. A cell of
    /// Old that then names a young cell is remembered. If the row has more than four cells, it has an index afterwards.
    ///
    /// The call is refused with `OutOfMemory` if memory ran out. The memory is for the block of a chunk, for the note
    /// of a cell, or for the index of the row. It is refused with `HeapFull` if a chunk is needed and the nursery is
    /// used up and gets no more blocks. After a refusal all is as it was, but there may be room for one more note.
    pub fn add_edge(
        &mut self,
        worker: u64,
        from: Place,
        to: Place,
        label: Label,
    ) -> Result<(), RoomFault>
        requires { MayAddEdge self.old worker from to }
        ensures { AddsEdgeFor self.old self.new (nursery_of self.old worker) from to label result }
    {
        let subject = self.active(worker);
        self.add_edge_as(subject, from, to, label)
    }

    /// What [`Heap::add_edge`] does for a worker that was looked up.
    #[inline(always)]
    pub fn add_edge_as(
        &mut self,
        worker: Subject,
        from: Place,
        to: Place,
        label: Label,
    ) -> Result<(), RoomFault>
        requires worker { Contains self.old.subjects worker }
        requires from { IsObject self.old from }
        requires to { IsObject self.old to }
        ensures added { OnOk result (AddsRights self.old self.new from to label) }
        ensures placed { OnOk result (IsPutInRow self.old.table self.new.table self.old.remembered self.new.remembered (nursery_space worker.nursery) from to label) }
        ensures kept { OnOk result (KeepsPlaces self.old self.new) }
        ensures indexed { OnOk result (KeepsIndexes self.old self.new from) }
        ensures refused { OnErr result (self.new ≡ self.old) }
        ensures full { result ≡ Err RoomFault.HeapFull → LacksCellsFor self.old.table (nursery_space worker.nursery) 0 (name_of self.old from) (name_of self.old to) }
    {
        // It shows what holds of all spaces (`IsSpaceTable`).
        let _ = self.cells.spaces.blocks();
        self.cells.add_edge(
            &mut self.rows,
            worker.nursery,
            from,
            Gift {
                to,
                rights: label.rights(),
            },
        )
    }

    /// Takes rights over the vertex with a name from the vertex at a place. A reference that has none left leaves an
    /// empty place, and chunks stay. It takes no cell and no block, and no other memory.
    pub fn drop_rights(&mut self, from: Place, name: u64, label: Label)
        requires { IsObject self.old from }
        ensures dropped { DropsRights self.old self.new from name label }
        ensures placed { IsTakenFromRow self.old.table self.new.table from name label }
        ensures kept { KeepsPlaces self.old self.new }
        ensures used { self.new.table.used ≡ self.old.table.used }
        ensures blocks { (space : ℕ) → length (space_of self.new.table.spaces space) ≡ length (space_of self.old.table.spaces space) }
        ensures remembered { self.new.remembered ≡ self.old.remembered }
        ensures indexed { (x : ℕ) → Contains self.new.indexed x ↔ Contains self.old.indexed x }
    {
        self.cells
            .drop_rights(&mut self.rows, from, name, label.rights());
    }

    /// Makes a vertex with a new name, which stores the draft's payload, and gives the worker rights over it. The
    /// worker has to be an active subject. All growth comes before any change, and blocks come last. The vertex is the
    /// next cell of the worker's nursery, and the reference to it goes to the place that `add_edge` would choose. A
    /// cell of Old that names the vertex or a new chunk is remembered. If the row of the worker has more than four
    /// cells, it has an index afterwards.
    ///
    /// The call is refused with `OutOfMemory` if memory was refused. It is refused with `HeapFull` if the vertex and
    /// its reference need more cells than are left. The nursery of the worker then has too few cells, and gets no more
    /// blocks. A refusal hands the draft back. All is then as it was, but there may be room for one more payload and
    /// one more note.
    #[inline(always)]
    pub fn new_vertex(
        &mut self,
        worker: u64,
        name: u64,
        label: Label,
        draft: Draft<P>,
    ) -> Result<(), VertexRefused<P>>
        requires worker { IsActive self.old worker }
        requires fresh { ¬ IsNamed (content_of self.old) name }
        ensures made { OnOk result (AddsVertex self.old self.new worker name label draft) }
        ensures placed { OnOk result (IsMadeInRow self.old.table self.new.table self.old.remembered self.new.remembered (nursery_space (nursery_of self.old worker)) worker name label) }
        ensures kept { OnOk result (KeepsPlaces self.old self.new) }
        ensures indexed { OnOk result ((row : PlaceOf) × IsVertexAt self.old.table.spaces worker row × KeepsIndexes self.old self.new row) }
        ensures handed_back { IfErr result (λ refused. refused.draft ≡ draft) }
        ensures refused { OnErr result (IsUnchangedHeap self.old self.new) }
        ensures full { IfErr result (λ refused. refused.why ≡ RoomFault.HeapFull → LacksCellsFor self.old.table (nursery_space (nursery_of self.old worker)) 1 worker name) }
    {
        self.make_vertex(worker, name, label, draft)?;
        Ok(())
    }

    // Makes a vertex that is no active subject, and answers where it is.
    #[inline(always)]
    fn make_vertex(
        &mut self,
        worker: u64,
        name: u64,
        label: Label,
        draft: Draft<P>,
    ) -> Result<Place, VertexRefused<P>>
        requires { MayMake self.old worker name }
        ensures done { MakesVertexFor self.old self.new worker name label draft result }
        ensures place { TellsPlace self.old self.new name result }
    {
        let subject = self.active(worker);
        // It shows what holds of all spaces (`IsSpaceTable`).
        let _ = self.cells.spaces.blocks();
        let vertex = NewVertex {
            name,
            rights: label.rights(),
            draft,
        };
        self.cells
            .new_vertex(&mut self.rows, subject.nursery, subject.place, vertex)
    }

    /// Makes a vertex as `new_vertex` does, which is an active subject afterwards. The subject holds the nursery with
    /// the least number that no active subject holds. Its own cell is in the nursery of the worker. If a retired
    /// subject left cells in the subject's nursery, new cells come after them. The call asks for no more memory than
    /// `new_vertex`.
    ///
    /// The name has to be above those of all active subjects, and there have to be fewer active subjects than the
    /// limit. The refusals are those of `new_vertex`.
    pub fn new_subject(
        &mut self,
        worker: u64,
        name: u64,
        label: Label,
        draft: Draft<P>,
    ) -> Result<(), VertexRefused<P>>
        requires worker { IsActive self.old worker }
        requires fresh { ¬ IsNamed (content_of self.old) name }
        requires few { length self.old.subjects < MAX_NURSERIES }
        requires above { All (λ x. x < name) (subject_names self.old) }
        ensures made { OnOk result (AddsVertex self.old self.new worker name label draft) }
        ensures placed { OnOk result (IsMadeInRow self.old.table self.new.table self.old.remembered self.new.remembered (nursery_space (nursery_of self.old worker)) worker name label) }
        ensures added { OnOk result (AddsSubject self.old self.new name) }
        ensures indexed { OnOk result ((row : PlaceOf) × IsVertexAt self.old.table.spaces worker row × KeepsIndexes self.old self.new row) }
        ensures handed_back { IfErr result (λ refused. refused.draft ≡ draft) }
        ensures refused { OnErr result (IsUnchangedHeap self.old self.new) }
        ensures full { IfErr result (λ refused. refused.why ≡ RoomFault.HeapFull → LacksCellsFor self.old.table (nursery_space (nursery_of self.old worker)) 1 worker name) }
    {
        let place = self.make_vertex(worker, name, label, draft)?;
        self.subjects.add(name, place);
        Ok(())
    }

    /// The active subject with a name is one no more, if there is one. Its vertex stays, with its edges and what it
    /// stores. Its nursery keeps its cells until the next collection, and may be given to a new subject before. Takes
    /// no memory.
    pub fn retire(&mut self, name: u64)
        ensures subjects { self.new.subjects ≡ without self.old.subjects name }
        ensures table { self.new.table ≡ self.old.table }
        ensures payloads { self.new.payloads ≡ self.old.payloads }
        ensures remembered { self.new.remembered ≡ self.old.remembered }
        ensures indexed { self.new.indexed ≡ self.old.indexed }
    {
        self.subjects.retire(name);
    }
}
