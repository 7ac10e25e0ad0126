/// What a token is to the grammar.
#[derive(Clone, Copy, Debug)]
pub enum TokenKind {
    All,
    And,
    As,
    By,
    Case,
    Close,
    Create,
    Declare,
    Desc,
    Distinct,
    Else,
    End,
    Except,
    Explain,
    Fetch,
    For,
    From,
    Insert,
    Intersect,
    Limit,
    Not,
    On,
    Or,
    Order,
    Select,
    Then,
    Union,
    When,
    Where,
    Foreign,
    Table,
    Predicate,
    Rank,
    Index,
    Int,
    Integer,
    Text,
    Max,
    Min,
    Abs,
    Cost,
    Cursor,
    Analyze,
    Into,
    Values,
    Name,
    Number,
    Literal,
    OpenBracket,
    CloseBracket,
    Comma,
    Semicolon,
    Dot,
    Plus,
    Minus,
    Star,
    Slash,
    Equal,
    NotEqual,
    Less,
    LessEqual,
    Greater,
    GreaterEqual,
}

impl TokenKind {
    ghost use Rattle.std.specs.Prelude.{◌≡◌, [], ◌∷◌};
    ghost use Rattle.rs_grammar.specs.Kinds.{accepts, token_kind_number, counted_kinds, names, plain_names};

    /// The place of the kind among all kinds.
    fn code(self) -> u8
        ensures { result ≡ token_kind_number self }
    {
        self as u8
    }

    /// Whether both are one kind.
    pub fn is(self, other: TokenKind) -> bool
        ensures { result ≡ accepts (other ∷ []) self }
    {
        self.code() == other.code()
    }

    /// Whether it is one of these kinds.
    pub fn is_any(self, kinds: &[TokenKind]) -> bool
        ensures { result ≡ accepts kinds.now self }
    {
        for kind in kinds {
            if self.is(*kind) {
                return true;
            }
        }
        false
    }

    /// Whether the token may be a name: a word that isn't reserved, or a name between marks.
    pub fn is_name(self) -> bool
        ensures { result ≡ accepts names self }
    {
        matches!(
            self,
            TokenKind::Table
                | TokenKind::Predicate
                | TokenKind::Rank
                | TokenKind::Index
                | TokenKind::Int
                | TokenKind::Integer
                | TokenKind::Text
                | TokenKind::Max
                | TokenKind::Min
                | TokenKind::Abs
                | TokenKind::Cost
                | TokenKind::Cursor
                | TokenKind::Analyze
                | TokenKind::Into
                | TokenKind::Values
                | TokenKind::Name
        )
    }

    /// Whether the token may be a name that is no function's: no `abs`, `min` or `max`.
    pub fn is_plain_name(self) -> bool
        ensures { result ≡ accepts plain_names self }
    {
        matches!(
            self,
            TokenKind::Table
                | TokenKind::Predicate
                | TokenKind::Rank
                | TokenKind::Index
                | TokenKind::Int
                | TokenKind::Integer
                | TokenKind::Text
                | TokenKind::Cost
                | TokenKind::Cursor
                | TokenKind::Analyze
                | TokenKind::Into
                | TokenKind::Values
                | TokenKind::Name
        )
    }

    /// Whether the token counts towards the depth of a statement.
    pub fn is_counted(self) -> bool
        ensures { result ≡ accepts counted_kinds self }
    {
        matches!(
            self,
            TokenKind::OpenBracket
                | TokenKind::Plus
                | TokenKind::Minus
                | TokenKind::Star
                | TokenKind::Slash
                | TokenKind::And
                | TokenKind::Or
                | TokenKind::Not
                | TokenKind::When
        )
    }
}
