ghost use Rattle.std.specs.Prelude.{◌≡◌, ℕ, List};
ghost use Rattle.rs_value.specs.Outside.{Counts, Outside};
ghost use Rattle.rs_outside.specs.Sink.{Puts};

/// Why bytes could not be put.
#[derive(Clone, Copy, Debug, PartialEq, Eq)]
pub enum SinkFault {
    Failed,
    Memory,
}

/// What takes bytes, a piece at a time.
pub trait Sink {
    /// The pieces taken so far, where the object tells them: its bytes are these one after another; how many puts failed; and
    /// whether none will. A stream of the system tells nothing, and is never steady.
    ghost state: { Self → Outside (List (List ℕ)) };

    /// Takes the bytes. One that fails has taken a prefix of them, and one for which there is no memory nothing. The
    /// bytes join the pieces as one.
    ///
    /// # Errors
    ///
    /// - `Failed`: only where the count of faults rose; of a steady object never. A prefix of the bytes was taken.
    /// - `Memory`: at any call; nothing was taken.
    fn put(&mut self, bytes: &[u8]) -> Result<(), SinkFault>
        ensures puts { Puts bytes.now result (state self.old).told (state self.new).told }
        ensures counts { Counts (result ≡ Err SinkFault.Failed) (state self.old) (state self.new) };
}
