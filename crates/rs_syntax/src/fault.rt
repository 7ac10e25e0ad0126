use thiserror::Error;

/// Why tokens are no script, with the byte of the script at which it goes wrong, counted from 0.
#[derive(Clone, Copy, Debug, Error, PartialEq, Eq)]
pub enum SyntaxFault {
    #[error("something else is expected at byte {at}")]
    Expected { at: u32 },
    #[error("the statement is too deep from byte {at} on")]
    TooDeep { at: u32 },
    #[error("there are too many statements, from byte {at} on")]
    TooManyStatements { at: u32 },
    #[error("the word at byte {at} isn't part of this language")]
    NotInProfile { at: u32 },
    #[error("there is no memory for the statements")]
    Memory,
}
