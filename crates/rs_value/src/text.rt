ghost use Rattle.std.specs.Prelude.{◌≡◌, ◌==◌, IsUtf8, IfOk, Some};
ghost use Rattle.std.proofs.Common.{rules};
ghost use Rattle.std.specs.Cmp.{partial_order_from_own_ties};
ghost use Rattle.std.specs.Cmp.Lexicographic.{pointwise, slice_cmp};
ghost use Rattle.std.specs.Cmp.Rules.{comparing, hashing};
ghost use Rattle.std.specs.Hash as fed;
ghost use Rattle.std.specs.Ordering.{nat_cmp, as_partial_cmp};
ghost use Rattle.rs_value.specs.Answer.{Gives};
ghost use Rattle.rs_value.specs.Text.{reason_of, text_of};

use crate::memory::Memory;
use std::alloc::Global;
use std::cmp::Ordering;
use std::error::Error;
use std::fmt::{self, Display, Formatter, Write};
use std::hash::{Hash, Hasher};
use std::marker::Model;

/// A text: bytes that are UTF-8, of any length. Contracts see the list of its bytes.
#[derive(Debug, Drop)]
pub struct Text {
    chars: String,
}

impl Model for Text {
    ghost use Rattle.std.specs.Prelude.{List, ℕ};
    ghost use Rattle.std.specs.String.{string_bytes};

    ghost Value = { List ℕ };

    ghost view = { λ t. string_bytes t.chars };
}

/// Why no text was made of bytes.
#[derive(Clone, Copy, Debug, PartialEq, Eq)]
pub enum TextFault {
    /// The bytes aren't UTF-8. `at` is the length of the longest prefix that is.
    NotUtf8 { at: usize },
    /// There is no memory for a copy of the bytes.
    Memory,
}

impl Display for TextFault {
    ghost output = { λ fault. Some (reason_of fault) };

    fn fmt<W: Write>(&self, f: &mut Formatter<W>) -> fmt::Result {
        match self {
            TextFault::NotUtf8 { at } => write!(f, "the bytes from {at} on aren't UTF-8"),
            TextFault::Memory => write!(f, "{Memory}"),
        }
    }
}

impl Error for TextFault {}

impl Text {
    /// The text of these bytes, which are copied. UTF-8 is that of RFC 3629: no surrogates, no over-long forms,
    /// nothing above U+10FFFF.
    ///
    /// # Errors
    ///
    /// - `NotUtf8`: exactly where the bytes aren't UTF-8, with the length of the longest prefix that is.
    /// - `Memory`: at any call, in place of each answer.
    pub fn from_bytes(alloc: Global, bytes: &[u8]) -> Result<Text, TextFault>
        ensures { Gives TextFault.Memory (text_of bytes.now) result }
    {
        match str::from_utf8(bytes) {
            Ok(text) => match String::from_str(alloc, text) {
                Ok(chars) => Ok(Text { chars }),
                Err(_) => Err(TextFault::Memory),
            },
            Err(error) => Err(TextFault::NotUtf8 {
                at: error.valid_up_to(),
            }),
        }
    }

    /// The bytes of the text.
    pub fn bytes(&self) -> &[u8]
        ensures value { result.now ≡ self.now }
        ensures utf8 { IsUtf8 result.now }
    {
        self.as_str().as_bytes()
    }

    /// The text as a `str`.
    pub fn as_str(&self) -> &str
        ensures { result.now ≡ self.now }
    {
        self.chars.as_str()
    }

    /// An equal text, on the same allocator.
    ///
    /// # Errors
    ///
    /// - `Memory`: at any call.
    pub fn copy(&self) -> Result<Text, Memory>
        ensures { IfOk result (λ text. text ≡ self.now) }
    {
        match self.chars.clone() {
            Ok(chars) => Ok(Text { chars }),
            Err(_) => Err(Memory),
        }
    }
}

/// The text of the same characters. It takes no memory.
impl From<String> for Text {
    ghost use Rattle.std.specs.Prelude.{◌≡◌, string_bytes};

    ghost from_gives = { λ chars text. text ≡ string_bytes chars };

    fn from(chars: String) -> Text {
        Text { chars }
    }
}

/// Two texts are equal where their bytes are: no two spellings of a character are made one.
impl PartialEq for Text {
    ghost eq = { pointwise ◌==◌ };

    ghost laws = { Prim.search (comparing, rules) };

    fn eq(&self, other: &Text) -> bool {
        self.as_str() == other.as_str()
    }
}

impl Eq for Text {
    ghost laws = { Prim.search (comparing, rules) };
}

/// Lexicographic by bytes, which for UTF-8 is the order by code points.
impl Ord for Text {
    ghost cmp = { slice_cmp nat_cmp };

    ghost total = { Prim.search (comparing, rules) };

    ghost matches_partial_cmp = { Prim.search (comparing, rules) };

    ghost matches_eq = { Prim.search (comparing, rules) };

    fn cmp(&self, other: &Text) -> Ordering {
        self.as_str().cmp(other.as_str())
    }
}

impl PartialOrd for Text {
    ghost partial_cmp = { as_partial_cmp (slice_cmp nat_cmp) };

    ghost laws = { partial_order_from_own_ties (Prim.search (comparing, rules)) (Prim.search (comparing, rules)) };

    fn partial_cmp(&self, other: &Text) -> Option<Ordering> {
        Some(self.cmp(other))
    }
}

impl Hash for Text {
    ghost hash_input = { fed.str };

    ghost respects_eq = { Prim.search (hashing, rules) };

    fn hash<H: Hasher>(&self, state: &mut H) {
        self.as_str().hash(state);
    }
}
