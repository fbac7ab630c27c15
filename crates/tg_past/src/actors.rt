//! Who is active after entries, and how many vertices were made.
ghost use Rattle.std.specs.Prelude.{◌≡◌, ◌<◌, ◌^◌, IfOk, OnOk};
ghost use Rattle.tg_model.specs.Graph.{ProtectionGraph};
ghost use Rattle.tg_model.specs.Rules.{subjects_after};
ghost use Rattle.tg_journal.specs.History.{IsLegal, graph_after};
ghost use Rattle.tg_past.specs.Inner.{Follows, HasActors, enlisted_by, made_by};

use std::alloc::{AllocError, Global};
use tg_journal::Entry;
use tg_model::{Command, Deed, Picture, Reply};

/// The active subjects of a graph, and how many vertices were made.
#[derive(Drop)]
pub(crate) struct Actors {
    /// The active subjects, by rising name.
    pub(crate) subjects: Vec<u64>,
    /// How many vertices were ever made.
    pub(crate) made: u64,
}

impl Actors {
    /// Those after entries, which go on from the graph of a picture. Fails only when out of memory.
    pub(crate) fn after(
        alloc: Global,
        first: &Picture,
        entries: &[Entry],
    ) -> Result<Actors, AllocError>
        ensures { IfOk result (λ actors. (g : ProtectionGraph) → g.subjects ≡ first.now.subjects → g.made ≡ first.now.made → g.limit ≡ first.now.limit →
            IsLegal g entries.now → HasActors (graph_after g entries.now) actors) }
    {
        // The limit is a number of 64 bits, and so no name is above it.
        let _limit = first.limit();
        let mut actors = Actors {
            subjects: Vec::from_slice(alloc, first.subjects())?,
            made: first.made(),
        };
        for entry in entries {
            actors.follow(entry)?;
        }
        Ok(actors)
    }

    // Follows an entry. Fails only when out of memory.
    fn follow(&mut self, entry: &Entry) -> Result<(), AllocError>
        ensures { OnOk result (Follows self.old entry.now self.new) }
    {
        match &entry.deed {
            Deed::Create { .. } => (),
            Deed::Spawn { .. } => self.enlist(&entry.reply)?,
            Deed::Plain(command) => self.serve(entry.worker, command),
        }
        self.count(&entry.reply);
        Ok(())
    }

    // Adds the subject that was made, if one was.
    fn enlist(&mut self, reply: &Reply) -> Result<(), AllocError>
        ensures subjects { OnOk result (self.new.subjects.items ≡ enlisted_by self.old.subjects.items reply.now) }
        ensures made { self.new.made ≡ self.old.made }
    {
        if let Reply::Name(name) = reply {
            self.subjects.push(*name)?;
        }
        Ok(())
    }

    // Ends the subject that asks for it.
    fn serve(&mut self, worker: u64, command: &Command)
        ensures subjects { self.new.subjects.items ≡ subjects_after self.old.subjects.items worker command.now }
        ensures made { self.new.made ≡ self.old.made }
    {
        if let Command::Retire = command {
            self.subjects.retain(|subject| *subject != worker);
        }
    }

    // Counts the vertex that was made, if one was.
    fn count(&mut self, reply: &Reply)
        ensures made { self.new.made ≡ made_by self.old.made reply.now }
        ensures subjects { self.new.subjects ≡ self.old.subjects }
    {
        if let Reply::Name(name) = reply {
            self.made = name.saturating_add(1);
        }
    }
}
