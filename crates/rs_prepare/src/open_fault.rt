/// A file of an asking, by the word that names it.
#[derive(Clone, Copy, Debug, PartialEq, Eq)]
pub enum End {
    Questions,
    Answers,
    Scores,
}

/// What is written or read already when a file is opened.
#[derive(Clone, Copy, Debug, PartialEq, Eq)]
pub enum Stream {
    Output,
    Error,
    Scores,
    Questions,
}

/// Why a file is not opened.
#[derive(Clone, Copy, Debug, PartialEq, Eq)]
pub enum OpenFault {
    /// No file is there, or no folder for it.
    Missing,
    /// Another program has locked it.
    InUse,
    /// It is this one, which is in use already.
    OneFile(Stream),
    /// The system refused it.
    Failed,
    Memory,
}
