use rs_lex::Span;
use rs_value::Text;

/// A name with its place. Names are compared byte by byte, and case matters.
#[derive(Debug, Drop)]
pub struct Name {
    pub text: Text,
    pub at: Span,
}

/// A column, with the alias of its FROM entry where one is written.
#[derive(Debug, Drop)]
pub struct ColRef {
    pub alias: Option<Name>,
    pub column: Name,
}

/// An argument of a predicate.
#[derive(Debug, Drop)]
pub enum Arg {
    Column(ColRef),
    /// A number. The span of one with `-` has both tokens.
    Int(i64, Span),
    Text(Text, Span),
}
