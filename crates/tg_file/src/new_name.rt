//! The two names of a file that is being made.
ghost use Rattle.std.specs.Prelude.{◌≡◌, IsTrue, OnOk};

use std::{fs, io};

/// The names of a file that was made, and what became of them. Each method makes one call of the system, and then notes
/// it.
#[derive(Drop)]
pub struct NewName {
    pub(crate) first: String,
    pub(crate) last: String,
    pub(crate) folder: fs::File,
    /// The file has its last name, unless the machine crashes.
    pub(crate) is_renamed: bool,
    /// A crash leaves the file its last name.
    pub(crate) is_lasting: bool,
}

impl NewName {
    /// Gives the file its last name.
    pub fn rename(&mut self, rt: &HostRuntime) -> io::Result<()>
        ensures renamed { OnOk result (IsTrue self.new.is_renamed) }
        ensures lasting { self.new.is_lasting ≡ self.old.is_lasting }
    {
        fs::rename(rt, self.first.as_str(), self.last.as_str())?;
        self.is_renamed = true;
        Ok(())
    }

    /// Syncs the folder. If the file had its last name, a crash leaves it that name.
    pub fn sync_folder(&mut self) -> io::Result<()>
        ensures lasting { OnOk result (self.new.is_lasting ≡ self.old.is_renamed) }
        ensures renamed { self.new.is_renamed ≡ self.old.is_renamed }
    {
        self.folder.sync_all()?;
        self.is_lasting = self.is_renamed;
        Ok(())
    }

    /// Removes the file under its first name. It does nothing if it can't.
    pub fn give_up(self, rt: &HostRuntime) {
        let _ = fs::remove_file(rt, self.first.as_str());
    }
}
