ghost use Rattle.std.specs.Prelude.{◌≡◌};
ghost use Rattle.rs_value.specs.Faults.{raised};
ghost use Rattle.rs_value.specs.Outside.{Counts};
ghost use Rattle.rs_feed.specs.Feeds.{FeedState, GivesNext, given_after};

use crate::feed_row::FeedRow;

/// Why a draw gave no row.
#[derive(Clone, Copy, Debug, PartialEq, Eq)]
pub enum FeedFault {
    Failed,
    Memory,
}

/// A source of rows. Whoever owns it may pay for each draw, so each is counted, also one that fails.
///
/// No draw of a feed promises an order of scores: what a join makes of rows out of order is its own matter.
pub trait Feed {
    /// The rows, where the feed tells them, which no draw changes; how many draws were made, how many rows were given, and how
    /// many draws failed; and whether none will. The three counts stand still at 2^64 - 1.
    ghost state: { Self → FeedState };

    /// The next row, or none at the end. Where the feed tells its rows, it is the first one that wasn't given yet. Each
    /// draw is counted, also one that fails, each row that was given, and each failure.
    ///
    /// # Errors
    ///
    /// - `None`: where the feed tells its rows and the draw doesn't fail, exactly where all were given; that is no
    ///   fault.
    /// - `Failed`: only where the count of faults rose; of a steady feed never.
    /// - `Memory`: at any call.
    fn draw(&mut self) -> Result<Option<FeedRow>, FeedFault>
        ensures row { GivesNext (state self.old).outside.told (state self.old).given result }
        ensures told { (state self.new).outside.told ≡ (state self.old).outside.told }
        ensures draws { (state self.new).draws ≡ raised (state self.old).draws }
        ensures given { (state self.new).given ≡ given_after result (state self.old).given }
        ensures counts { Counts (result ≡ Err FeedFault.Failed) (state self.old).outside (state self.new).outside };
}
