use std::io::ErrorKind;

/// What the system answered when a file was fetched.
#[derive(Debug, Drop)]
pub enum Answered {
    /// The file couldn't be opened.
    Open(ErrorKind),
    /// It was opened, and this is the answer of the last read of it.
    Read(Option<Result<usize, ErrorKind>>),
}
