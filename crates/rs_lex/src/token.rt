/// A piece of a script: the bytes from `start` up to `end`, both counted from the script's first byte.
#[derive(Clone, Copy, Debug, PartialEq, Eq)]
pub struct Span {
    pub start: u32,
    pub end: u32,
}

/// What a token is.
#[derive(Clone, Copy, Debug, PartialEq, Eq)]
pub enum Sort {
    /// A letter or `_`, and then letters, digits and `_`.
    Word,
    /// A name between `"`, each `"` in it doubled.
    Quoted,
    /// Decimal digits.
    Number,
    /// A text between `'`, each `'` in it doubled.
    Literal,
    /// One of `( ) , ; . + - * / = <> != < <= > >=`.
    Symbol,
}

/// A token. Its text is that piece of the script.
#[derive(Clone, Copy, Debug, PartialEq, Eq)]
pub struct Token {
    pub sort: Sort,
    pub at: Span,
}
