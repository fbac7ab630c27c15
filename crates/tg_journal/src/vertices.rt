//! The vertices that an audit keeps.
ghost use Rattle.std.specs.Prelude.{◌≡◌, ◌<◌, ℕ, nat_eq, IsTrue, IfOk, IfSome, option_copied, [], None, if◌then◌else◌};
ghost use Rattle.indexmap.specs.IndexSet.{contains};
ghost use Rattle.tg_rights.specs.RightSet.{no_rights};
ghost use Rattle.tg_model.specs.Graph.{with_rights, without_rights, listing_of};
ghost use Rattle.tg_model.specs.Rules.{with_value, written_at};
ghost use Rattle.tg_journal.specs.Inner.Steps.{AreTargetsOf, Changes, FindsPlace, HasTargetsBelow};
ghost use Rattle.tg_journal.specs.Live.{HasVertexAt, label_between, value_of};

mod shown;

use indexmap::IndexSet;
use std::alloc::{AllocError, Global};
use std::marker::Model;
use std::mem::replace;
use tg_model::{EdgeList, Row, Value};
use tg_rights::{Label, Rights};

// A vertex. Contracts see the name, the edges and what is stored.
#[derive(Drop)]
struct Vertex {
    name: u64,
    row: Row,
    // None where rights were given to a vertex that wasn't kept.
    value: Option<Value>,
}

/// Vertices by rising name. Contracts see the list of them. Names were made one after the other. So the distance of two
/// vertices in the list is mostly that of their names. A name that isn't kept takes no memory.
#[derive(Drop)]
pub(crate) struct Vertices {
    items: Vec<Vertex>,
}

impl Model for Vertices {
    ghost use Rattle.std.specs.Prelude.{List};
    ghost use Rattle.tg_journal.specs.declared.vertices.Vertex.{Vertex};
    ghost use Rattle.tg_journal.specs.Live.{NamesFrom};

    ghost Value = { List Vertex };

    ghost view = { λ a. a.items.items };

    ghost invariant = { λ a. NamesFrom 0 a.items.items };
}

impl Vertices {
    /// No vertex. Takes no memory.
    pub(crate) fn new(alloc: Global) -> Vertices
        ensures { result ≡ [] }
    {
        Vertices {
            items: Vec::new(alloc),
        }
    }

    /// How many there are.
    pub(crate) fn len(&self) -> usize {
        self.items.len()
    }

    /// The rights of one vertex over another.
    pub(crate) fn label(&self, from: u64, to: u64) -> Rights
        ensures { result ≡ label_between self.now from to }
    {
        match self.place(from) {
            Ok(at) => self.items[at].row.rights_over(to),
            Err(_) => Rights::empty(),
        }
    }

    /// What a vertex stores.
    pub(crate) fn value(&self, name: u64) -> Option<&Value>
        ensures { option_copied result ≡ value_of self.now name }
    {
        match self.place(name) {
            Ok(at) => self.items[at].value.as_ref(),
            Err(_) => None,
        }
    }

    /// The edges of a vertex, by rising name of the target. Fails only when out of memory.
    pub(crate) fn row(&self, alloc: Global, from: u64) -> Result<EdgeList, AllocError>
        ensures targets { IfOk result (λ row. (n : ℕ) → HasTargetsBelow self.now from n → AreTargetsOf self.now from row) }
        ensures listing { IfOk result (λ row. (n : ℕ) → HasTargetsBelow self.now from n →
            row ≡ listing_of (label_between self.now) n from) }
    {
        match self.place(from) {
            Ok(at) => self.items[at].row.copy(alloc),
            Err(_) => Ok(EdgeList::from_vec(Vec::new(alloc))),
        }
    }

    /// Has a vertex store a value, whatever it stored. Where memory is refused all is as it was.
    pub(crate) fn put(&mut self, alloc: Global, name: u64, value: Value) -> Result<(), AllocError>
        ensures { Changes self.old self.new (label_between self.old) (with_value (value_of self.old) name value) result }
    {
        match self.place(name) {
            Ok(at) => {
                drop(replace(&mut self.items[at].value, Some(value)));
            }
            Err(at) => {
                let row = Row::new(alloc);
                let vertex = Vertex {
                    name,
                    row,
                    value: Some(value),
                };
                self.items.insert(at, vertex)?;
            }
        }
        Ok(())
    }

    /// Writes to what a vertex stores, by its law. If it stores nothing, nothing changes. Where memory is refused all
    /// is as it was.
    pub(crate) fn write(&mut self, alloc: Global, name: u64, value: u64) -> Result<(), AllocError>
        ensures { Changes self.old self.new (label_between self.old) (written_at (value_of self.old) name value) result }
    {
        if let Ok(at) = self.place(name) {
            if let Some(stored) = &mut self.items[at].value {
                stored.law.write(alloc, &mut stored.state, value)?;
            }
        }
        Ok(())
    }

    /// Gives one vertex rights over another. It widens the edge, or makes an edge. Where memory is refused all is as it
    /// was.
    pub(crate) fn add(
        &mut self,
        alloc: Global,
        from: u64,
        to: u64,
        label: Label,
    ) -> Result<(), AllocError>
        ensures { Changes self.old self.new (with_rights (label_between self.old) from to label) (value_of self.old) result }
    {
        match self.place(from) {
            Ok(at) => self.items[at].row.add(to, label)?,
            Err(at) => {
                let mut row = Row::new(alloc);
                row.add(to, label)?;
                let vertex = Vertex {
                    name: from,
                    row,
                    value: None,
                };
                self.items.insert(at, vertex)?;
            }
        }
        Ok(())
    }

    /// Takes rights of one vertex over another away, and with the last of them the edge. Takes no memory.
    pub(crate) fn lose(&mut self, from: u64, to: u64, rights: Rights)
        ensures labels { label_between self.new ≡ without_rights (label_between self.old) from to rights }
        ensures values { value_of self.new ≡ value_of self.old }
    {
        if let Ok(at) = self.place(from) {
            self.items[at].row.lose(to, rights);
        }
    }

    /// Forgets all but the vertices of these names. Takes no memory.
    pub(crate) fn keep(&mut self, names: &IndexSet<u64>)
        ensures labels { (x y : ℕ) → label_between self.new x y ≡ (if contains nat_eq names.now x then label_between self.old x y else no_rights) }
        ensures values { (y : ℕ) → value_of self.new y ≡ (if contains nat_eq names.now y then value_of self.old y else None) }
    {
        self.items.retain(|vertex| names.contains(&vertex.name));
    }

    // Where the vertex of a name is, or where it would go.
    fn place(&self, name: u64) -> Result<usize, usize>
        ensures { FindsPlace self.now name result }
    {
        match self.guess(name) {
            Some(at) => Ok(at),
            None => self.search(name),
        }
    }

    // Where the vertex of a name is, as far as the first and the last name show.
    fn guess(&self, name: u64) -> Option<usize>
        ensures { IfSome result (HasVertexAt self.now name) }
    {
        let first = self.items.first()?.name;
        let at = name.wrapping_sub(first) as usize;
        if self.stands(at, name) {
            return Some(at);
        }
        let last = self.items.last()?.name;
        let at = (self.items.len() - 1).wrapping_sub(last.wrapping_sub(name) as usize);
        if self.stands(at, name) {
            return Some(at);
        }
        None
    }

    // Whether the vertex at a place has a name.
    fn stands(&self, at: usize, name: u64) -> bool
        ensures { IsTrue result → HasVertexAt self.now name at }
    {
        match self.items.get(at) {
            Some(vertex) => vertex.name == name,
            None => false,
        }
    }

    // Where the vertex of a name is, or where it would go, found by halves.
    fn search(&self, name: u64) -> Result<usize, usize>
        ensures { FindsPlace self.now name result }
    {
        match self.items.last() {
            Some(last) if name <= last.name => self
                .items
                .binary_search_by_key(&name, |vertex| vertex.name),
            _ => Err(self.items.len()),
        }
    }
}
