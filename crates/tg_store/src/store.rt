//! The store and its calls.
ghost use Rattle.std.specs.Prelude.{◌≡◌, ◌≢◌, ◌↔◌, ◌≤◌, ◌<◌, ◌+◌, ◌-◌, ◌^◌, ℕ, [], Err, Ok, None, Some, IfOk, IfErr, IfSome, IsSome, IsTrue, IsErrAnd, OnOk, OnErr, MatchOption, length};
ghost use Rattle.tg_model.specs.Rules.{step};
ghost use Rattle.tg_store.specs.Faults.{IsFirstDifference};

mod audit;
mod hand;
mod holders;
mod law;
mod leave;
mod park;
mod picture;
mod reopen;
mod snapshot;
mod unpark;
mod withdraw;
mod withdrawal;

use crate::answer::answer_command;
use crate::census::{Census, Collections};
use crate::fault::{ApplyFault, CreateFault, CreateRefused, OpenFault, OpenRefused};
use crate::making::{Limit, add_vertex, deed_to_enter};
use crate::origin::StoreOrigin;
use crate::store::holders::label_between;
use crate::tallied::TalliedJournal;
use std::alloc::{AllocError, Global};
use std::marker::Model;
use tg_evac::collect_one;
use tg_graph::{Heap, HeapRefused};
use tg_journal::{Entry, Journal};
use tg_model::{Command, Deed, MAX_WORKERS, Making, Opening, Reply, Value};
use tg_payload::{Draft, Payload};
use tg_rights::Label;
use tg_rules::readable;
use tg_space::{Copied, Kind, Limits, RoomFault, Root, Spaces, Spare};
use tg_subjects::Subject;
use tg_word::OLD;

/// An object store with access control, over payloads that its callers hand in. Contracts see it as a `StoreState`.
/// They describe each call by the protection graph that the store represents. This is the graph of its origin after the
/// deeds of all entries since. The origin is an opening, or a snapshot from which the store was opened again. No
/// collection changes the graph.
pub struct Store<P: Payload> {
    alloc: Global,
    opening: StoreOrigin,
    // How many vertices were ever made, which is the name of the next.
    made: u64,
    heap: Heap<P>,
    journal: TalliedJournal,
    collections: Collections,
}

// It is written out, so that a crate that drops a store doesn't prove again how each part of it is dropped.
impl<P: Payload> Drop for Store<P> {
    fn drop(self) {
        let Self {
            alloc: _,
            opening: _opening,
            made: _,
            heap: _heap,
            journal: _journal,
            collections: _,
        } = self;
    }
}

impl<P: Payload> Model for Store<P> {
    ghost use Rattle.std.specs.Prelude.{◌≡◌};
    ghost use Rattle.tg_store.specs.Store.{StoreState, IsStore};

    ghost Value = { StoreState };

    ghost view = { λ a. record { opening = a.opening; entries = a.journal.entries; handed = a.journal.start; heap = a.heap; collections = a.collections } };

    ghost invariant = { λ a. IsStore (record { opening = a.opening; entries = a.journal.entries; handed = a.journal.start; heap = a.heap; collections = a.collections }) a.made };
}

impl<P: Payload> Store<P> {
    ghost use Rattle.tg_model.specs.Graph.{ProtectionGraph, IsSubject};
    ghost use Rattle.tg_model.specs.Opened.{start_of};
    ghost use Rattle.tg_model.specs.Rules.{IsAllowed, step, answer_of};
    ghost use Rattle.tg_model.specs.declared.opening.TheConstants.{MAX_WORKERS};
    ghost use Rattle.tg_model.specs.declared.reply.Denial.{Denial};
    ghost use Rattle.tg_space.specs.Collection.{AreFewBlocks, collected_in, copies_in, IsCollection, used_cells};
    ghost use Rattle.tg_space.specs.Soundness.{AreSound};
    ghost use Rattle.tg_space.specs.SpaceList.{block_count, space_of};
    ghost use Rattle.tg_space.specs.SpaceTable.{kept_blocks};
    ghost use Rattle.tg_space.specs.Targets.{all_root_targets, from_space};
    ghost use Rattle.tg_payload.specs.Table.{count};
    ghost use Rattle.tg_graph.specs.Heap.{CollectAlike, content_of, nursery_of, roots_of};
    ghost use Rattle.tg_graph.specs.Shown.{shown_in};
    ghost use Rattle.std.specs.Prelude.{◌==◌};
    ghost use Rattle.std.specs.List.{IsDistinct};
    ghost use Rattle.tg_subjects.specs.Subjects.{AreSubjects, names_of};
    ghost use Rattle.tg_rules.specs.Effect.{AddsEdge, LacksCellsToServe};
    ghost use Rattle.tg_store.specs.Collecting.{IsSwept, KeepsHistory};
    ghost use Rattle.tg_store.specs.Counts.{no_collections, refusals_in};
    ghost use Rattle.tg_store.specs.Held.{IsHeldOver};
    ghost use Rattle.tg_store.specs.Made.{IsCrowdedOut, IsMadeFor, MayRefuse};
    ghost use Rattle.tg_store.specs.Origin.{opened_by};
    ghost use Rattle.tg_model.specs.Making.{deed_making};
    ghost use Rattle.tg_store.specs.Making.{IsLimitMet};
    ghost use Rattle.tg_store.specs.declared.making.Limit.{Limit as LimitOf};
    ghost use Rattle.tg_store.specs.Room.{LacksRoomToCollect};
    ghost use Rattle.tg_store.specs.Store.{Enters, HandsOut, HasAdopted, HasFewBlocks, HoldsFrom, IsFaithful, IsStore, IsUnchanged, OnlyEnters, StandsFor, graph_of_store};

    /// Opens a store that starts from the opening, with the payloads of the drafts, one for each worker. Its journal
    /// has no entry, and its heap has one block for each worker.
    ///
    /// The refusals, in the order in which they are looked for. Each hands back the opening and the drafts as they
    /// were:
    ///
    /// - `PayloadMismatch`, exactly if the laws and states of the drafts aren't those of the opening's values. It has
    ///   the first such place.
    /// - `HeapFull`, exactly if the heap may have fewer blocks than there are workers.
    /// - `OutOfMemory`, if memory runs out.
    pub fn open(
        alloc: Global,
        opening: Opening,
        limits: Limits,
        drafts: Vec<Draft<P>>,
    ) -> Result<Store<P>, OpenRefused<P>>
        ensures start { IfOk result (λ store. StandsFor store (start_of opening)) }
        ensures opening { IfOk result (λ store. store.opening ≡ opened_by opening) }
        ensures no_entry { IfOk result (λ store. store.entries ≡ []) }
        ensures none_handed { IfOk result (λ store. store.handed ≡ 0) }
        ensures none_collected { IfOk result (λ store. store.collections ≡ no_collections) }
        ensures limits { IfOk result (λ store. store.heap.table.limits ≡ limits) }
        ensures blocks { IfOk result (λ store. block_count store.heap.table.spaces ≡ opening.workers) }
        ensures mismatch { (at : ℕ) → IsErrAnd result (λ refused. refused.why ≡ OpenFault.PayloadMismatch at) ↔ IsFirstDifference opening.values drafts.items at }
        ensures full { IsErrAnd result (λ refused. refused.why ≡ OpenFault.HeapFull) ↔ ((drafts.items ≡ opening.values) × (limits.max_blocks < opening.workers)) }
        ensures handed_back { IfErr result (λ refused. (refused.opening ≡ opening) × (refused.drafts.items ≡ drafts.items)) }
    {
        if let Some(at) = first_difference(opening.values(), drafts.as_slice()) {
            let why = OpenFault::PayloadMismatch { at };
            return Err(OpenRefused {
                opening,
                drafts,
                why,
            });
        }
        match Heap::open(alloc, &opening, limits, drafts) {
            Ok(heap) => {
                let made = opening.workers();
                let origin = StoreOrigin::first(opening);
                Ok(Store::begin(alloc, origin, made, heap, TalliedJournal::new(alloc)))
            }
            Err(refused) => {
                let HeapRefused { drafts, why } = refused;
                Err(OpenRefused {
                    opening,
                    drafts,
                    why: OpenFault::from(why),
                })
            }
        }
    }

    // The store with this origin, this heap and this journal. It hasn't collected yet.
    fn begin(
        alloc: Global,
        opening: StoreOrigin,
        made: u64,
        heap: Heap<P>,
        journal: TalliedJournal,
    ) -> Store<P>
        requires { IsStore (record { opening = opening; entries = journal.entries; handed = journal.start; heap = heap; collections = no_collections }) made }
        ensures { result ≡ record { opening = opening; entries = journal.entries; handed = journal.start; heap = heap; collections = no_collections } }
    {
        Store {
            alloc,
            opening,
            made,
            heap,
            journal,
            collections: Collections {
                nursery: 0,
                full: 0,
            },
        }
    }

    /// The opening, as it was handed in. Takes no memory.
    pub fn opening(&self) -> &Opening
        ensures { result.now ≡ self.now.opening.plan }
    {
        self.opening.opening()
    }

    /// The active subjects of the graph, by rising name. Takes no memory.
    pub fn subjects(&self) -> &[Subject]
        ensures subjects { result.now ≡ self.now.heap.subjects }
        ensures names { (g : ProtectionGraph) → StandsFor self.now g → names_of result.now ≡ g.subjects }
        ensures well_formed { AreSubjects result.now }
    {
        self.heap.subjects()
    }

    /// Whether an active subject has the name. Takes no memory.
    pub fn is_subject(&self, name: u64) -> bool
        ensures { (g : ProtectionGraph) → StandsFor self.now g → IsTrue result ↔ IsSubject g name }
    {
        self.heap.subject(name).is_some()
    }

    /// The entries of all commands that the store decided and still holds. Two facts are true of every store. The
    /// journal is a legal history from the store's origin, and the heap represents the graph after it. A store that was
    /// opened again from a snapshot has no entry from before the snapshot, and its places go on after them. Takes no
    /// memory.
    pub fn journal(&self) -> &Journal
        ensures entries { result.now.entries ≡ self.now.entries }
        ensures start { result.now.start ≡ self.now.handed }
        ensures within { self.now.handed ≤ length self.now.entries }
        ensures faithful { IsFaithful self.now }
    {
        // This call shows that no more were handed out than were made.
        let journal = self.journal.journal();
        let _ = journal.start();
        journal
    }

    /// Hands out the entries that the store holds, as a journal that begins with the place of the first one. The store
    /// then holds no entry, and its next entry gets the next place. The graph is unchanged. A caller who keeps what is
    /// handed out has all entries. A caller who drops it bounds the memory of the store's journal. Takes no memory, and
    /// looks at no entry.
    pub fn take_journal(&mut self) -> Journal
        ensures entries { result.entries ≡ self.old.entries }
        ensures start { result.start ≡ self.old.handed }
        ensures handed_out { HandsOut self.old self.new }
    {
        self.journal.take(self.alloc)
    }

    /// Gives up the entries before a place. The place has to be that of an entry that the store holds, or the next
    /// place. The graph is unchanged. The store keeps the room of the journal, so that a store whose entries are given
    /// up regularly asks for no more room. Takes no memory. Over many calls the time is in proportion to the number of
    /// entries that are given up.
    pub fn forget(&mut self, upto: u64)
        requires { (self.old.handed ≤ upto) × (upto ≤ length self.old.entries) }
        ensures { HoldsFrom upto self.old self.new }
    {
        self.journal.forget(upto);
    }

    /// Lets the store go, with all that it holds, as `drop` does.
    pub fn let_go(self) {}

    /// Counts what the store holds and did. The answer has the numbers of vertices, payloads and blocks of the heap,
    /// and of the entries that were made and are held. It also has the numbers of entries for each refusal, and of the
    /// collections of each kind since the store was opened. A refused collection doesn't count. Takes no memory and
    /// constant time.
    pub fn census(&self) -> Census
        ensures vertices { result.vertices ≡ length (content_of self.now.heap).names }
        ensures payloads { result.payloads ≡ count self.now.heap.payloads }
        ensures blocks { result.blocks ≡ block_count self.now.heap.table.spaces }
        ensures entries { result.entries ≡ length self.now.entries }
        ensures held { result.held ≡ length self.now.entries - self.now.handed }
        ensures refusals { result.refusals ≡ refusals_in self.now.entries }
        ensures collections { result.collections ≡ self.now.collections }
    {
        let journal = self.journal.journal();
        let entries = journal.len();
        Census {
            vertices: self.heap.vertices(),
            payloads: self.heap.payloads().len(),
            blocks: self.heap.spaces().blocks(),
            entries,
            held: entries - journal.start(),
            refusals: self.journal.refusals(),
            collections: self.collections,
        }
    }

    /// Takes a command of a worker. The reply is that of the rules on the graph, and the graph then changes by the
    /// command. Exactly the entry of the command with its reply is added to the journal. A denial is a reply, and
    /// changes nothing else.
    ///
    /// The refusals, in the order in which they are looked for. After each the store is as it was, and there is no
    /// entry:
    ///
    /// - `NoSuchWorker`, exactly if no worker has the name.
    /// - `HeapFull`, only if the command is allowed and its new reference needs a cell. The nursery of the worker then
    ///   has no cell left and gets no more blocks.
    /// - `OutOfMemory`, if memory runs out.
    #[inline(always)]
    pub fn apply(&mut self, worker: u64, command: Command) -> Result<Reply, ApplyFault>
        ensures entry { IfOk result (λ reply. Enters self.old self.new worker (Deed.Plain command) reply) }
        ensures reply { (g : ProtectionGraph) → StandsFor self.old g → IfOk result (λ reply. reply ≡ answer_of g worker (Deed.Plain command)) }
        ensures step { (g : ProtectionGraph) → StandsFor self.old g → OnOk result (StandsFor self.new (step g worker (Deed.Plain command))) }
        ensures denied { (denial : Denial) → result ≡ Ok (Reply.Denied denial) → OnlyEnters self.old self.new worker (Deed.Plain command) (Reply.Denied denial) }
        ensures no_such_worker { (g : ProtectionGraph) → StandsFor self.old g → (result ≡ Err ApplyFault.NoSuchWorker) ↔ (¬ IsSubject g worker) }
        ensures full { (g : ProtectionGraph) → StandsFor self.old g → result ≡ Err ApplyFault.HeapFull →
            IsAllowed g worker (Deed.Plain command) × AddsEdge command × LacksCellsToServe self.old.heap.table (nursery_of self.old.heap worker) worker command }
        ensures refused { OnErr result (IsUnchanged self.old self.new) }
        ensures opening { self.new.opening ≡ self.old.opening }
        ensures handed { self.new.handed ≡ self.old.handed }
        ensures limits { self.new.heap.table.limits ≡ self.old.heap.table.limits }
        ensures collections { self.new.collections ≡ self.old.collections }
    {
        let Some(subject) = self.heap.subject(worker) else {
            return Err(ApplyFault::NoSuchWorker);
        };
        self.journal.reserve()?;
        let reply = answer_command(
            self.alloc,
            &mut self.heap,
            &mut self.journal,
            subject,
            &command,
        )?;
        Ok(reply)
    }

    /// Makes a vertex that stores the draft's payload, and gives the worker the rights of the label over it. Returns
    /// the name of the vertex, which is the next name of the graph. Exactly the entry of the create with that name is
    /// added to the journal. A block is added to the heap only if too few cells are left.
    ///
    /// The refusals, in the order in which they are looked for. Each hands back the draft:
    ///
    /// - `NoSuchWorker`, exactly if no worker has the name.
    /// - `VerticesFull`, exactly if as many vertices were made as the limit allows. It has an entry, unless memory runs
    ///   out for the entry, which is `OutOfMemory`.
    /// - `HeapFull`, only if a vertex may be made, and it needs more cells than the nursery of the worker has and gets.
    /// - `OutOfMemory`, if memory runs out.
    ///
    /// After a refusal the store is as it was, but for the entry of `VerticesFull`.
    pub fn create(
        &mut self,
        worker: u64,
        label: Label,
        draft: Draft<P>,
    ) -> Result<u64, CreateRefused<P>>
        ensures entry { IfOk result (λ name. Enters self.old self.new worker (Deed.Create label draft.law draft.state) (Reply.Name name)) }
        ensures made { IfOk result (IsMadeFor (Deed.Create label draft.law draft.state) worker label draft self.old self.new) }
        ensures refusals { MayRefuse (Deed.Create label draft.law draft.state) worker draft self.old self.new result }
        ensures no_more_entry { IfErr result (λ refused. refused.why ≡ CreateFault.VerticesFull →
            OnlyEnters self.old self.new worker (Deed.Create label draft.law draft.state) Reply.VerticesFull) }
        ensures no_workers_full { IfErr result (λ refused. refused.why ≢ CreateFault.WorkersFull) }
        ensures refused { IfErr result (λ refused. refused.why ≢ CreateFault.VerticesFull → IsUnchanged self.old self.new) }
    {
        self.make(worker, Making::Object, label, draft)
    }

    /// Makes a vertex as [`create`](Store::create) does, which is a subject too. The subject issues commands of its
    /// own, as a worker. Its name is the next one, above all names that were ever given, so it is the last of the
    /// active subjects.
    ///
    /// The refusals, in the order in which they are looked for. Each hands back the draft:
    ///
    /// - `NoSuchWorker`, exactly if no active subject has the name of the worker.
    /// - `OutOfMemory`, if memory runs out for the entry.
    /// - `VerticesFull`, exactly if as many vertices were made as the limit allows. It has an entry.
    /// - `WorkersFull`, exactly if more vertices may be made, and 64 subjects are active. It has an entry.
    /// - `OutOfMemory` or `HeapFull`, as `create` has them.
    ///
    /// After a refusal the store is as it was, but for the entries of `VerticesFull` and `WorkersFull`.
    pub fn spawn(
        &mut self,
        worker: u64,
        label: Label,
        draft: Draft<P>,
    ) -> Result<u64, CreateRefused<P>>
        ensures entry { IfOk result (λ name. Enters self.old self.new worker (Deed.Spawn label draft.law draft.state) (Reply.Name name)) }
        ensures made { IfOk result (IsMadeFor (Deed.Spawn label draft.law draft.state) worker label draft self.old self.new) }
        ensures refusals { MayRefuse (Deed.Spawn label draft.law draft.state) worker draft self.old self.new result }
        ensures no_more_entry { IfErr result (λ refused. refused.why ≡ CreateFault.VerticesFull →
            OnlyEnters self.old self.new worker (Deed.Spawn label draft.law draft.state) Reply.VerticesFull) }
        ensures too_many { (g : ProtectionGraph) → StandsFor self.old g → IfErr result (λ refused. refused.why ≡ CreateFault.WorkersFull →
            IsSubject g worker × (g.made < g.limit) × (MAX_WORKERS ≤ length g.subjects)) }
        ensures crowded { (g : ProtectionGraph) → StandsFor self.old g → IsSubject g worker → g.made < g.limit → MAX_WORKERS ≤ length g.subjects →
            IsCrowdedOut result }
        ensures too_many_entry { IfErr result (λ refused. refused.why ≡ CreateFault.WorkersFull →
            OnlyEnters self.old self.new worker (Deed.Spawn label draft.law draft.state) Reply.WorkersFull) }
        ensures refused { IfErr result (λ refused. refused.why ≢ CreateFault.VerticesFull → refused.why ≢ CreateFault.WorkersFull → IsUnchanged self.old self.new) }
    {
        self.make(worker, Making::Subject, label, draft)
    }

    /// Makes a vertex of a kind, for callers who make both kinds. [`create`](Store::create) makes an object, and
    /// [`spawn`](Store::spawn) makes a subject. The refusals are the same, in the same order.
    #[inline(always)]
    pub fn make(
        &mut self,
        worker: u64,
        kind: Making,
        label: Label,
        draft: Draft<P>,
    ) -> Result<u64, CreateRefused<P>>
        ensures entry { IfOk result (λ name. Enters self.old self.new worker (deed_making kind label draft) (Reply.Name name)) }
        ensures made { IfOk result (IsMadeFor (deed_making kind label draft) worker label draft self.old self.new) }
        ensures refusals { MayRefuse (deed_making kind label draft) worker draft self.old self.new result }
        ensures no_more_entry { IfErr result (λ refused. refused.why ≡ CreateFault.VerticesFull →
            OnlyEnters self.old self.new worker (deed_making kind label draft) Reply.VerticesFull) }
        ensures too_many { (g : ProtectionGraph) → StandsFor self.old g → IfErr result (λ refused. refused.why ≡ CreateFault.WorkersFull →
            (kind ≡ Making.Subject) × IsSubject g worker × (g.made < g.limit) × (MAX_WORKERS ≤ length g.subjects)) }
        ensures crowded { kind ≡ Making.Subject → (g : ProtectionGraph) → StandsFor self.old g → IsSubject g worker → g.made < g.limit → MAX_WORKERS ≤ length g.subjects →
            IsCrowdedOut result }
        ensures too_many_entry { IfErr result (λ refused. refused.why ≡ CreateFault.WorkersFull →
            OnlyEnters self.old self.new worker (deed_making kind label draft) Reply.WorkersFull) }
        ensures refused { IfErr result (λ refused. refused.why ≢ CreateFault.VerticesFull → refused.why ≢ CreateFault.WorkersFull → IsUnchanged self.old self.new) }
    {
        let Some(_) = self.heap.subject(worker) else {
            return Err(CreateRefused {
                draft,
                why: CreateFault::NoSuchWorker,
            });
        };
        let met = self.limit_met(kind);
        let Ok(deed) = deed_to_enter(self.alloc, &mut self.journal, kind, label, draft.value())
        else {
            return Err(CreateRefused {
                draft,
                why: CreateFault::OutOfMemory,
            });
        };
        if let Some(limit) = met {
            let entry = Entry {
                worker,
                deed,
                reply: limit.reply(),
            };
            self.journal.push_refusal(entry, limit.refusal());
            return Err(CreateRefused {
                draft,
                why: limit.fault(),
            });
        }
        let name = self.made;
        add_vertex(&mut self.heap, worker, kind, name, label, draft)?;
        self.journal.push(Entry {
            worker,
            deed,
            reply: Reply::Name(name),
        });
        self.made += 1;
        Ok(name)
    }

    // The first limit that is in the way of one more vertex of the kind.
    fn limit_met(&self, kind: Making) -> Option<Limit>
        ensures { IsLimitMet (graph_of_store self.now) kind result }
    {
        if self.made >= self.opening.max_vertices() {
            return Some(Limit::Vertices);
        }
        match kind {
            Making::Object => None,
            Making::Subject => self.subjects_limit(),
        }
    }

    // The limit of subjects, where as many are active as may be.
    fn subjects_limit(&self) -> Option<Limit>
        ensures none { result ≡ None → length (graph_of_store self.now).subjects < MAX_WORKERS }
        ensures some { (limit : LimitOf) → result ≡ Some limit → (limit ≡ Limit.Subjects) × (MAX_WORKERS ≤ length (graph_of_store self.now).subjects) }
    {
        if self.heap.subjects().len() as u64 >= MAX_WORKERS {
            Some(Limit::Subjects)
        } else {
            None
        }
    }

    /// Lends the payload of the vertex with a name, if a worker may read it. The answer is `Some` exactly if a read
    /// command of the worker would be served. It is `None` too if no worker has the name. The value of the payload is
    /// that of the graph. The call changes nothing and makes no entry, so the journal has no record of it. Takes no
    /// memory.
    pub fn payload(&self, worker: u64, name: u64) -> Option<&P>
        ensures allowed { (g : ProtectionGraph) → StandsFor self.now g → IsSome result ↔ (IsSubject g worker × IsAllowed g worker (Deed.Plain (Command.Read name))) }
        ensures stored { (g : ProtectionGraph) → StandsFor self.now g → IfSome result (λ payload. g.value name ≡ Some (P.value payload.now)) }
    {
        let Some(_) = self.heap.subject(worker) else {
            return None;
        };
        readable(&self.heap, worker, name)
    }

    /// Returns the rights that a worker holds over the vertex with a name. It is exactly the label between the two on
    /// the graph. The answer is `None` if the graph has no such edge. A worker has no edge to itself, to a name that
    /// was never made, or to a vertex that was collected. The answer is `None` too if no worker has the name. The call
    /// changes nothing and makes no entry, so the journal has no record of it. Takes no memory.
    pub fn label(&self, worker: u64, target: u64) -> Option<Label>
        ensures held { (g : ProtectionGraph) → StandsFor self.now g → IsHeldOver g worker target result }
    {
        let subject = self.heap.subject(worker)?;
        label_between(&self.heap, subject.place, target)
    }

    /// Writes the names of the heap's vertices to `into`, and returns how many vertices there are. The names are in the
    /// order of the places of their cells, and each comes once. If there is less room than names, the first names are
    /// written. The rest of `into` stays as it is. A vertex that no subject reaches is listed until it is collected.
    /// Takes no memory, and makes no entry.
    pub fn names(&self, into: &mut [u64]) -> u64
        ensures number { result ≡ length (content_of self.now.heap).names }
        ensures shown { into.new ≡ shown_in (content_of self.now.heap).names into.old }
        ensures once { IsDistinct (λ a b. a == b) (content_of self.now.heap).names }
    {
        self.heap.names(into)
    }

    /// Collects the heap with one thread, and returns how many vertices it has afterwards. The journal and the graph
    /// are unchanged. Each vertex that can be reached on the graph is kept, with its labels and its payload. Every
    /// other vertex that the collection removes is dropped with its payload.
    ///
    /// A full collection keeps exactly the vertices that can be reached. It moves all cells that the workers' rows
    /// reach to Old. A nursery collection moves only the younger cells, to Aged or to Old. It keeps all cells of Old,
    /// and looks only at the remembered cells of Old and at the workers' rows. Therefore it may keep vertices that
    /// nobody reaches. After either collection no nursery has a block. The remembered cells are then exactly the cells
    /// of Old that name a younger cell. After a full collection there are none.
    ///
    /// After a full collection there are no more blocks than the used cells need, with 64 cells in each. A nursery
    /// collection leaves the blocks of Old. It adds at most one block more than the younger used cells need, because it
    /// fills blocks of Old and of Aged. No space has more blocks than `Limits` gives it, unless it had more before, and
    /// then it has no more than before.
    ///
    /// A nursery collection takes no memory if it finds no younger cells and no remembered cells. It counts as a
    /// collection, as each one does that isn't refused.
    ///
    /// The call is refused with `HeapFull` only if the cells that are reached and moved may not fit into the blocks of
    /// a space. A vertex that nobody reaches is never the reason. The only other refusal is `OutOfMemory`. After a
    /// refusal the store is as it was.
    ///
    /// The heap is that of Marlow, Harris, James and Peyton Jones, "Parallel generational-copying garbage collection
    /// with a block-structured heap" (2008).
    pub fn collect(&mut self, kind: Kind) -> Result<u64, RoomFault>
        ensures swept { IfOk result (IsSwept kind self.old self.new) }
        ensures blocks { OnOk result (HasFewBlocks kind 0 self.old.heap.table self.new.heap.table) }
        ensures full { result ≡ Err RoomFault.HeapFull →
            LacksRoomToCollect kind 1 self.old.heap }
        ensures history { KeepsHistory self.old self.new result }
    {
        if kind == Kind::Nursery && self.is_all_old() {
            self.collections.add(kind);
            return Ok(self.heap.vertices());
        }
        let spare = self.take_spare();
        let copied = self.copy_reached(kind, spare)?;
        Ok(self.settle(kind, copied)?)
    }

    // Whether no space but Old has a block and no cell is remembered, so that a nursery collection changes nothing.
    fn is_all_old(&self) -> bool
        ensures { IsTrue result ↔ ((block_count self.now.heap.table.spaces ≡ length (space_of self.now.heap.table.spaces 0)) × (self.now.heap.remembered ≡ [])) }
    {
        let noted = self.heap.remembered().len();
        let spaces = self.heap.spaces();
        spaces.blocks() == spaces.len(OLD) && noted == 0
    }

    // Copies what a collection of this kind keeps, first into the spare blocks.
    fn copy_reached(&self, kind: Kind, spare: Spare) -> Result<Copied, RoomFault>
        ensures collected { IfOk result (λ copied. IsCollection kind self.now.heap.table.spaces (roots_of kind self.now.heap) (collected_in copied)) }
        ensures moved { IfOk result (λ copied. copies_in copied.forward.words 0 + copies_in copied.forward.words 1 ≤ used_cells kind self.now.heap.table.spaces) }
        ensures few { IfOk result (λ copied. AreFewBlocks self.now.heap.table.limits.space_blocks (kept_blocks kind self.now.heap.table.spaces) 0 (collected_in copied)) }
        ensures full { IfErr result (λ fault. fault ≡ RoomFault.HeapFull → LacksRoomToCollect kind 1 self.now.heap) }
    {
        let roots = self.heap.roots(self.alloc, kind)?;
        let copied = collect_one(self.alloc, self.heap.spaces(), &roots, kind, spare)?;
        Ok(copied)
    }

    /// Returns the cells from which a collection of this kind starts. A full collection starts from the rows of the
    /// workers, by rising name. A nursery collection also starts from the remembered cells. Suppose that a row may name
    /// young cells. Then a nursery collection has each young cell that the row's marked cells name as a row of its own.
    /// It reaches the same cells as from the whole rows. This call, [`spaces`](Store::spaces) and
    /// [`settle`](Store::settle) are for collectors outside of this crate. It fails only if memory runs out.
    pub fn roots(&self, kind: Kind) -> Result<Vec<Root>, AllocError>
        ensures roots { IfOk result (λ roots. CollectAlike kind self.now.heap.table.spaces (roots_of kind self.now.heap) roots.items) }
        ensures targets { IfOk result (λ roots. all_root_targets (from_space kind) self.now.heap.table.spaces roots.items ≡ all_root_targets (from_space kind) self.now.heap.table.spaces (roots_of kind self.now.heap)) }
        ensures sound { IfOk result (λ roots. AreSound self.now.heap.table.spaces roots.items) }
    {
        self.heap.roots(self.alloc, kind)
    }

    /// What the last collection left, for one by a collector outside of this crate to use. Nothing is left then. Takes
    /// no memory.
    pub fn take_spare(&mut self) -> Spare
        ensures { self.new ≡ self.old }
    {
        self.heap.take_spare()
    }

    /// The cells that a collection goes over. Takes no memory.
    pub fn spaces(&self) -> &Spaces
        ensures { result.now ≡ self.now.heap.table }
    {
        self.heap.spaces()
    }

    /// Replaces the cells that a collection moved by the cells that it made, and returns how many vertices the heap
    /// then has. The collection has to be of the store's own cells, from its own roots. It counts as a collection. The
    /// call fails only if memory runs out. The store is then as it was.
    pub fn settle(&mut self, kind: Kind, copied: Copied) -> Result<u64, AllocError>
        requires { IsCollection kind self.old.heap.table.spaces (roots_of kind self.old.heap) (collected_in copied) }
        ensures swept { IfOk result (IsSwept kind self.old self.new) }
        ensures adopted { OnOk result (HasAdopted kind self.old.heap self.new.heap (collected_in copied)) }
        ensures history { KeepsHistory self.old self.new result }
    {
        let count = self.heap.settle(kind, copied)?;
        // This call shows that no name is there twice.
        let _ = self.heap.vertices();
        self.collections.add(kind);
        Ok(count)
    }
}

// The first place where a draft's law or state isn't that of the value. If there is none, it is the smaller of the two
// numbers.
fn first_difference<P: Payload>(values: &[Value], drafts: &[Draft<P>]) -> Option<u64>
    ensures { MatchOption result (drafts.now ≡ values.now) (IsFirstDifference values.now drafts.now) }
{
    for (at, value) in values.iter().enumerate() {
        let Some(draft) = drafts.get(at) else {
            return Some(at as u64);
        };
        if !draft.value().same(value) {
            return Some(at as u64);
        }
    }
    if values.len() < drafts.len() {
        Some(values.len() as u64)
    } else {
        None
    }
}
