use thiserror::Error;

/// Why a script has no tokens, with the byte at which it goes wrong, counted from 0.
#[derive(Clone, Copy, Debug, Error, PartialEq, Eq)]
pub enum LexFault {
    #[error("no token begins at byte {at}")]
    BadByte { at: u32 },
    #[error("the text at byte {at} is never closed")]
    OpenText { at: u32 },
    #[error("the number at byte {at} is too great")]
    NumberTooWide { at: u32 },
    #[error("there are too many tokens, from byte {at} on")]
    TooManyTokens { at: u32 },
    #[error("there is no memory for the tokens")]
    Memory,
}
