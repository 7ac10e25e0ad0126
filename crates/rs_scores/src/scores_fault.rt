use crate::fault::KnownFault;
use rs_outside::FetchFault;

/// Why no scores are known.
#[derive(Clone, Copy, Debug, PartialEq, Eq)]
pub enum ScoresFault {
    /// There is no memory.
    Memory,
    /// The file couldn't be fetched.
    Fetch(FetchFault),
    /// The file holds no known scores.
    Refused(KnownFault),
}
