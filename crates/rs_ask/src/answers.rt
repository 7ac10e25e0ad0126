ghost use Rattle.std.specs.Prelude.{IsErr, List, ℕ};
ghost use Rattle.rs_value.specs.Outside.{Counts, Outside};
ghost use Rattle.rs_ask.specs.Answers.{ReadsByte};

/// A read of answers failed.
#[derive(Clone, Copy, Debug, PartialEq, Eq)]
pub struct ReadFault;

/// What answers are read from, a byte at a time.
pub trait Answers {
    /// The bytes that are left, where the object tells them; how many reads failed; and whether none will.
    ghost state: { Self → Outside (List ℕ) };

    /// The next byte.
    ///
    /// # Errors
    ///
    /// - `ReadFault`: only where the count of faults rose; of a steady object never. No byte is taken.
    /// - `None`: exactly at the end, which is no fault.
    fn next_byte(&mut self) -> Result<Option<u8>, ReadFault>
        ensures reads { ReadsByte result (state self.old).told (state self.new).told }
        ensures counts { Counts (IsErr result) (state self.old) (state self.new) };
}
