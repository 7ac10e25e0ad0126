ghost use Rattle.std.specs.Prelude.{◌≡◌, option_map};
ghost use Rattle.rs_value.specs.Outside.{Counts};
ghost use Rattle.rs_outside.specs.Files.{FilesState, FindsFile, StaysKnown, told_after};

use rs_value::Text;
use std::hash::RandomState;

/// Why a file could not be fetched.
#[derive(Clone, Copy, Debug, PartialEq, Eq)]
pub enum FetchFault {
    Missing,
    TooLong,
    Failed,
    Memory,
}

/// Files that are fetched whole, by name.
pub trait Files {
    /// The names that were fetched so far, where the object tells them; how many fetches failed, and whether none will; and
    /// what is known of each file, and whether what is found is known from then on. A disk tells nothing, is never steady, and
    /// nothing is known of its files.
    ghost state: { Self → FilesState };

    /// Appends the bytes of the file of this name, which are at most `limit`. After a fault `into` is as before. The
    /// fetch changes no file, its name joins those that are told, and what is known of a file stays known.
    ///
    /// # Errors
    ///
    /// - `Missing`: where it is known what is there and the answer is neither `Failed` nor `Memory`, exactly where no
    ///   file is.
    /// - `TooLong`: where it is known what is there and the answer is neither `Failed` nor `Memory`, exactly where the
    ///   file has more than `limit` bytes.
    /// - `Failed`: only where the count of faults rose; of a steady object never.
    /// - `Memory`: at any call, whose name isn't told.
    fn fetch(&mut self, name: &Text, limit: usize, into: &mut Vec<u8>) -> Result<(), FetchFault>
        // Some bytes are there, or no file is. Where it is known now what is there, it is that; and it is known now where the
        // object remembers what is found.
        ensures fetches { FindsFile name.now limit result into.old.items into.new.items (state self.new) }
        ensures stays_known { StaysKnown (state self.old).contents (state self.new).contents }
        ensures remembers { (state self.new).remembers ≡ (state self.old).remembers }
        ensures told { (state self.new).outside.told ≡ option_map (told_after name.now result) (state self.old).outside.told }
        ensures counts { Counts (result ≡ Err FetchFault.Failed) (state self.old).outside (state self.new).outside };

    /// The keys by which texts that were read from these files are hashed. They are to be made of random bytes, which no
    /// file can know, so that no file can make its reading slow on purpose.
    fn hash_keys(&self) -> RandomState;
}
