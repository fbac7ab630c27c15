//! What deeds change, and what is answered.
ghost use Rattle.std.specs.Prelude.{◌≡◌, ℕ, None, IfOk};

use crate::live::LiveGraph;
use std::alloc::AllocError;
use tg_model::{Command, Deed, Law, Making, Numbers, Reply, Value, denial_on};
use tg_rights::Label;

impl LiveGraph {
    ghost use Rattle.tg_model.specs.Graph.{without_rights, without_subject};
    ghost use Rattle.tg_model.specs.Making.{deed_making};
    ghost use Rattle.tg_model.specs.Picture.{with_edge};
    ghost use Rattle.tg_model.specs.Rules.{HoldsOver, denial_of, effect, state_of};
    ghost use Rattle.tg_journal.specs.Live.{graph_kept};
    ghost use Rattle.tg_journal.specs.Inner.Steps.{IsDoneTo, TakesDeed, TakesServed};

    /// Takes a deed of a subject. The answer is that of the rules, and the graph becomes the next one. Fails only when
    /// out of memory, and the graph is then as before but for what names store that weren't made yet.
    pub(crate) fn apply(&mut self, worker: u64, deed: &Deed) -> Result<Reply, AllocError>
        ensures { TakesDeed self.old self.new worker deed.now result }
    {
        match deed {
            Deed::Create { label, law, state } => {
                self.make(worker, Making::Object, *label, *law, state)
            }
            Deed::Spawn { label, law, state } => {
                self.make(worker, Making::Subject, *label, *law, state)
            }
            Deed::Plain(command) => match denial_on(self, worker, command) {
                Some(denial) => Ok(Reply::Denied(denial)),
                None => self.serve(worker, command),
            },
        }
    }

    // Makes a vertex and the edge of the worker to it.
    fn make(
        &mut self,
        worker: u64,
        making: Making,
        label: Label,
        law: Law,
        state: &Numbers,
    ) -> Result<Reply, AllocError>
        ensures { TakesDeed self.old self.new worker (deed_making making label (record { law = law; state = state.now })) result }
    {
        let name = self.made;
        if name >= self.max_vertices {
            return Ok(Reply::VerticesFull);
        }
        if making.is_one_too_many(self.subjects.len() as u64) {
            return Ok(Reply::WorkersFull);
        }
        // There is room for its name before the vertex is made, so that nothing is refused after that.
        self.subjects.try_reserve(1)?;
        let state = state.copy(self.alloc)?;
        self.vertices.put(self.alloc, name, Value { law, state })?;
        self.vertices.add(self.alloc, worker, name, label)?;
        self.made = name + 1;
        making.enlist(&mut self.subjects, name);
        Ok(Reply::Name(name))
    }

    // Does what a command asks for that is served.
    fn serve(&mut self, worker: u64, command: &Command) -> Result<Reply, AllocError>
        requires { denial_of (graph_kept self.old).label (graph_kept self.old).value worker command.now ≡ None }
        ensures { TakesServed self.old self.new worker command.now result }
    {
        match *command {
            Command::Take { target, rights, .. } => self.add(worker, target, rights),
            Command::Grant {
                via,
                target,
                rights,
            } => self.add(via, target, rights),
            Command::Remove { target, rights } => {
                self.remove(worker, target, rights);
                Ok(Reply::Done)
            }
            Command::Read { target } => self.read(target),
            Command::Write { target, value } | Command::Append { target, value } => {
                self.write(target, value)
            }
            Command::Inspect { target } => {
                Ok(Reply::Edges(self.vertices.row(self.alloc, target)?))
            }
            Command::List => Ok(Reply::Edges(self.vertices.row(self.alloc, worker)?)),
            Command::Retire => {
                self.retire(worker);
                Ok(Reply::Done)
            }
        }
    }

    // Gives one vertex rights over another, which someone holds already.
    fn add(&mut self, from: u64, to: u64, label: Label) -> Result<Reply, AllocError>
        requires { (x : ℕ) × HoldsOver (graph_kept self.old).label x to label }
        ensures { IsDoneTo self.old self.new (with_edge (graph_kept self.old) from to label) result }
    {
        self.vertices.add(self.alloc, from, to, label)?;
        Ok(Reply::Done)
    }

    // Takes rights away.
    fn remove(&mut self, from: u64, to: u64, label: Label)
        ensures { graph_kept self.new ≡ record (graph_kept self.old) { label = without_rights (graph_kept self.old).label from to label } }
    {
        self.has_lost = true;
        self.vertices.lose(from, to, label.rights());
    }

    // What a vertex stores.
    fn read(&self, target: u64) -> Result<Reply, AllocError>
        ensures { IfOk result (λ reply. reply ≡ Reply.Values (state_of ((graph_kept self.now).value target))) }
    {
        let state = match self.vertices.value(target) {
            Some(value) => value.state.copy(self.alloc)?,
            None => Numbers::none(),
        };
        Ok(Reply::Values(state))
    }

    // Writes to a vertex.
    fn write(&mut self, target: u64, value: u64) -> Result<Reply, AllocError>
        ensures { IsDoneTo self.old self.new (effect (graph_kept self.old) target (Command.Write target value)) result }
    {
        self.vertices.write(self.alloc, target, value)?;
        Ok(Reply::Done)
    }

    // Ends a subject.
    fn retire(&mut self, worker: u64)
        ensures { graph_kept self.new ≡ record (graph_kept self.old) { subjects = without_subject (graph_kept self.old).subjects worker } }
    {
        self.has_lost = true;
        self.subjects.retain(|subject| *subject != worker);
    }
}
