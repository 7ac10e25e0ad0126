use crate::open_fault::{End, OpenFault};
use rs_scores::ScoresFault;

/// Why nothing stands ready.
#[derive(Clone, Copy, Debug, PartialEq, Eq)]
pub enum PrepareFault {
    /// The file of this end isn't opened.
    Unopened(End, OpenFault),
    /// What is known can't be read.
    Unread(ScoresFault),
}
