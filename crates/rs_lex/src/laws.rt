//! What the definitions say: laws that hold of every script. The functions compute nothing; each is called for its
//! contract.

ghost use Rattle.std.specs.Prelude.{◌≡◌, ◌<◌, ◌≤◌, ◌+◌, ◌∷◌, ◌⊎◌, ℕ, All, List, drop, length, take};
ghost use Rattle.rs_lex.specs.Bytes.{quote};
ghost use Rattle.rs_lex.specs.Faults.{BeginsNoToken, BeginsOther, HasLetterBehind, IsFault, IsOpen, IsWide};
ghost use Rattle.rs_lex.specs.Spelling.{RefusesBytes, Spells, most_tokens, token_at};
ghost use Rattle.rs_lex.specs.Tokens.{EndsAt, IsGap, IsToken, from_token, token_length};
ghost use Rattle.rs_lex.specs.declared.fault.LexFault.{LexFault};
ghost use Rattle.rs_lex.specs.declared.token.Sort.{Sort};
ghost use Rattle.rs_lex.specs.declared.token.Token.{Token};

/// The bytes of each token are a token of its sort.
pub fn tokens_are_tokens()
    ensures { (at : ℕ) (bytes : List ℕ) (tokens : List Token) → Spells at bytes tokens
        → All (λ token. IsToken token.sort (take (token_length token) (from_token at bytes token))) tokens }
{}

/// Where a token was taken, no longer piece of the script that begins there is a token of any sort.
pub fn tokens_are_longest()
    ensures { (at : ℕ) (bytes : List ℕ) (tokens : List Token) → Spells at bytes tokens
        → All (λ token. (sort : Sort) (n : ℕ) → token_length token < n → n ≤ length (from_token at bytes token)
        → IsToken sort (take n (from_token at bytes token)) → ⊥) tokens }
{}

/// The byte directly behind a token, if there is one, doesn't go on with it.
pub fn tokens_end()
    ensures { (at : ℕ) (bytes : List ℕ) (tokens : List Token) → Spells at bytes tokens
        → All (λ token. EndsAt token.sort (token_length token) (from_token at bytes token)) tokens }
{}

/// A token that stands at a place, and ends where the next byte doesn't go on with it, is taken there.
pub fn tokens_are_taken()
    ensures { (at n : ℕ) (sort : Sort) (bytes : List ℕ) (tokens : List Token) → n ≤ length bytes
        → IsToken sort (take n bytes) → EndsAt sort n bytes → Spells (at + n) (drop n bytes) tokens
        → Spells at bytes (token_at at sort n ∷ tokens) }
{}

/// Blanks and comments are passed over: what a script spells, or is refused with, behind them, it does from them on.
pub fn gaps_are_passed()
    ensures spelled { (at n : ℕ) (bytes : List ℕ) (tokens : List Token) → IsGap n bytes
        → Spells (at + n) (drop n bytes) tokens → Spells at bytes tokens }
    ensures refused { (count at n : ℕ) (bytes : List ℕ) (fault : LexFault) → IsGap n bytes
        → RefusesBytes count (at + n) (drop n bytes) fault → RefusesBytes count at bytes fault }
{}

/// Each script spells tokens, no more than there may be, or it is refused.
pub fn each_script_is_lexed_or_refused()
    ensures { (script : List ℕ) → ((tokens : List Token) × (length tokens ≤ most_tokens) × Spells 0 script tokens)
        ⊎ ((fault : LexFault) × RefusesBytes 0 0 script fault) }
{}

/// The bytes of a script spell one list of tokens at most.
pub fn one_list_of_tokens()
    ensures { (at : ℕ) (bytes : List ℕ) (tokens others : List Token) → Spells at bytes tokens → Spells at bytes others
        → tokens ≡ others }
{}

/// A script that spells few enough tokens isn't refused.
pub fn spelled_is_not_refused()
    ensures { (at : ℕ) (bytes : List ℕ) (tokens : List Token) (fault : LexFault) → length tokens ≤ most_tokens
        → Spells at bytes tokens → RefusesBytes 0 at bytes fault → ⊥ }
{}

/// A script is refused only at a place where what the fault says stands, as `IsFault` says it of the script's bytes.
pub fn refusals_are_faults()
    ensures { (script : List ℕ) (fault : LexFault) → RefusesBytes 0 0 script fault → IsFault script fault }
{}

/// At a place behind this many tokens, fewer than a script may have, a script is refused with what stands there; and where
/// a token stands there and ends, with what is told behind it. Behind as many as it may have, it has too many.
pub fn faults_are_refused()
    ensures no_token { (count at : ℕ) (bytes : List ℕ) → count < most_tokens → BeginsNoToken bytes
        → RefusesBytes count at bytes (LexFault.BadByte at) }
    ensures empty_name { (count at : ℕ) (after : List ℕ) → count < most_tokens → ((more : List ℕ) → after ≡ quote ∷ more → ⊥)
        → RefusesBytes count at (quote ∷ quote ∷ after) (LexFault.BadByte at) }
    ensures letter { (count at n : ℕ) (bytes : List ℕ) → count < most_tokens → HasLetterBehind n bytes
        → RefusesBytes count at bytes (LexFault.BadByte (at + n)) }
    ensures never_closed { (count at : ℕ) (bytes : List ℕ) → count < most_tokens → IsOpen bytes
        → RefusesBytes count at bytes (LexFault.OpenText at) }
    ensures too_great { (count at : ℕ) (bytes : List ℕ) → count < most_tokens → IsWide bytes
        → RefusesBytes count at bytes (LexFault.NumberTooWide at) }
    ensures too_many { (at : ℕ) (bytes : List ℕ) → BeginsOther bytes
        → RefusesBytes most_tokens at bytes (LexFault.TooManyTokens at) }
    ensures behind { (count at n : ℕ) (sort : Sort) (bytes : List ℕ) (fault : LexFault) → count < most_tokens → n ≤ length bytes
        → IsToken sort (take n bytes) → EndsAt sort n bytes → RefusesBytes (count + 1) (at + n) (drop n bytes) fault
        → RefusesBytes count at bytes fault }
{}
