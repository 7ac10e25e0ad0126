use crate::node::About;
use rs_value::Text;
use std::fs::OpenOptions;
use std::io::{self, Read, Write};

/// What the system is asked for when the files of an asking are opened. What it answers is told nowhere beforehand: clauses say what
/// comes of an answer.
pub trait System {
    ghost use Rattle.rs_prepare.specs.Seeing.{SystemTells};

    /// An open file.
    type File: Read + Write + Drop;

    /// What the system may answer to each of these calls.
    ghost tells: { SystemTells Self Self.File };

    /// Opens the file of this name, as the options ask for it.
    ///
    /// # Errors
    ///
    /// - `Err`: where the system doesn't open the file so; it is the system's own error.
    fn open(&self, how: &OpenOptions, name: &Text) -> io::Result<Self::File>
        ensures { tells.opens self.now how.now name.now result };

    /// What an open file is.
    ///
    /// # Errors
    ///
    /// - `None`: where the system doesn't tell it.
    fn open_file(&self, file: &Self::File) -> Option<About>
        ensures { tells.open_file self.now file.now result };

    /// What the file of this name itself is, so no file that the name only leads to.
    ///
    /// # Errors
    ///
    /// - `None`: where the system doesn't tell it.
    fn file_named(&self, name: &Text) -> Option<About>
        ensures { tells.file_named self.now name.now result };

    /// What standard output is.
    ///
    /// # Errors
    ///
    /// - `None`: where the system doesn't tell it.
    fn output(&self) -> Option<About>
        ensures { tells.output self.now result };

    /// What standard error is.
    ///
    /// # Errors
    ///
    /// - `None`: where the system doesn't tell it.
    fn error(&self) -> Option<About>
        ensures { tells.error self.now result };

    /// Locks the file as long as it is open, and says whether another program has locked it. A file that the system can't lock stays
    /// unlocked, and counts as one that nobody has locked.
    fn is_in_use(&self, file: &Self::File) -> bool
        ensures { tells.in_use self.now file.now result };
}
