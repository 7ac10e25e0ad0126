ghost use Rattle.std.specs.Prelude.{◌≡◌, map};
ghost use Rattle.std.specs.Str.{str_eq_ignore_ascii_case};
ghost use Rattle.rs_grammar.specs.Lexemes.{kind_in, words, symbols};

use crate::kind::TokenKind;

/// The words that mean something, in capitals.
const WORDS: [(&[u8], TokenKind); 64] = [
    (b"ALL", TokenKind::All),
    (b"AND", TokenKind::And),
    (b"AS", TokenKind::As),
    (b"BY", TokenKind::By),
    (b"CASE", TokenKind::Case),
    (b"CLOSE", TokenKind::Close),
    (b"CREATE", TokenKind::Create),
    (b"DECLARE", TokenKind::Declare),
    (b"DESC", TokenKind::Desc),
    (b"DISTINCT", TokenKind::Distinct),
    (b"ELSE", TokenKind::Else),
    (b"END", TokenKind::End),
    (b"EXCEPT", TokenKind::Except),
    (b"EXPLAIN", TokenKind::Explain),
    (b"FETCH", TokenKind::Fetch),
    (b"FOR", TokenKind::For),
    (b"FROM", TokenKind::From),
    (b"INSERT", TokenKind::Insert),
    (b"INTERSECT", TokenKind::Intersect),
    (b"LIMIT", TokenKind::Limit),
    (b"NOT", TokenKind::Not),
    (b"ON", TokenKind::On),
    (b"OR", TokenKind::Or),
    (b"ORDER", TokenKind::Order),
    (b"SELECT", TokenKind::Select),
    (b"THEN", TokenKind::Then),
    (b"UNION", TokenKind::Union),
    (b"WHEN", TokenKind::When),
    (b"WHERE", TokenKind::Where),
    (b"ASC", TokenKind::Foreign),
    (b"BETWEEN", TokenKind::Foreign),
    (b"DELETE", TokenKind::Foreign),
    (b"DROP", TokenKind::Foreign),
    (b"EXISTS", TokenKind::Foreign),
    (b"FULL", TokenKind::Foreign),
    (b"GROUP", TokenKind::Foreign),
    (b"HAVING", TokenKind::Foreign),
    (b"IN", TokenKind::Foreign),
    (b"INNER", TokenKind::Foreign),
    (b"IS", TokenKind::Foreign),
    (b"JOIN", TokenKind::Foreign),
    (b"LEFT", TokenKind::Foreign),
    (b"LIKE", TokenKind::Foreign),
    (b"NULL", TokenKind::Foreign),
    (b"OFFSET", TokenKind::Foreign),
    (b"OUTER", TokenKind::Foreign),
    (b"RIGHT", TokenKind::Foreign),
    (b"UPDATE", TokenKind::Foreign),
    (b"WITH", TokenKind::Foreign),
    (b"TABLE", TokenKind::Table),
    (b"PREDICATE", TokenKind::Predicate),
    (b"RANK", TokenKind::Rank),
    (b"INDEX", TokenKind::Index),
    (b"INT", TokenKind::Int),
    (b"INTEGER", TokenKind::Integer),
    (b"TEXT", TokenKind::Text),
    (b"MAX", TokenKind::Max),
    (b"MIN", TokenKind::Min),
    (b"ABS", TokenKind::Abs),
    (b"COST", TokenKind::Cost),
    (b"CURSOR", TokenKind::Cursor),
    (b"ANALYZE", TokenKind::Analyze),
    (b"INTO", TokenKind::Into),
    (b"VALUES", TokenKind::Values),
];

const SYMBOLS: [(&[u8], TokenKind); 16] = [
    (b"(", TokenKind::OpenBracket),
    (b")", TokenKind::CloseBracket),
    (b",", TokenKind::Comma),
    (b";", TokenKind::Semicolon),
    (b".", TokenKind::Dot),
    (b"+", TokenKind::Plus),
    (b"-", TokenKind::Minus),
    (b"*", TokenKind::Star),
    (b"/", TokenKind::Slash),
    (b"=", TokenKind::Equal),
    (b"<>", TokenKind::NotEqual),
    (b"!=", TokenKind::NotEqual),
    (b"<", TokenKind::Less),
    (b"<=", TokenKind::LessEqual),
    (b">", TokenKind::Greater),
    (b">=", TokenKind::GreaterEqual),
];

/// Whether two words are the same where A to Z are the same as a to z.
fn is_same(known: &[u8], word: &[u8]) -> bool
    ensures { result ≡ str_eq_ignore_ascii_case known.now word.now }
{
    known.eq_ignore_ascii_case(word)
}

/// The kind of a word in a table, where A to Z are the same as a to z. A word that isn't there is a name.
fn kind_in(mut table: &[(&[u8], TokenKind)], word: &[u8]) -> TokenKind
    ensures { result ≡ kind_in (map (λ entry. (entry.0.now, entry.1)) table.entry.now) word.now }
{
    while let [entry, rest @ ..] = table {
        if is_same(entry.0, word) {
            return entry.1;
        }
        table = rest;
    }
    TokenKind::Name
}

impl TokenKind {
    /// The kind of a word, in capitals or not.
    pub(crate) fn of_word(word: &[u8]) -> TokenKind
        ensures { result ≡ kind_in words word.now }
    {
        kind_in(&WORDS, word)
    }

    /// The kind of a symbol.
    pub(crate) fn of_symbol(symbol: &[u8]) -> TokenKind
        ensures { result ≡ kind_in symbols symbol.now }
    {
        kind_in(&SYMBOLS, symbol)
    }
}
