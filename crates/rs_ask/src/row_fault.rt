/// Why a put of a run's rows failed.
#[derive(Clone, Copy, Debug, PartialEq, Eq)]
pub(crate) enum RowFault {
    /// The piece isn't what was put before in its place.
    Differs,
    /// The put of what is new failed.
    Failed,
    /// There was no memory to put what is new.
    Memory,
}
