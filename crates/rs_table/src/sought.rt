ghost use Rattle.std.specs.Hash as fed;
ghost use Rattle.std.specs.Cmp.Lexicographic.{bytes_decides, nat_list_eq_equiv};
ghost use Rattle.std.specs.Str.{bytes_eq};
ghost use Rattle.std.proofs.Common.{ap};

use indexmap::Equivalent;
use rs_value::Text;
use std::hash::{Hash, Hasher};

/// The characters of a text by which a kept one is looked up, so that no `Text` is made for the look-up.
#[derive(Clone, Copy, PartialEq, Eq)]
pub(crate) struct Sought<'a>(pub &'a str);

impl Hash for Sought<'_> {
    ghost hash_input = { λ sought. fed.str sought.0.now };

    ghost respects_eq = { λ x y h. ap fed.str ((bytes_decides x.0.now y.0.now).0 h) };

    fn hash<H: Hasher>(&self, state: &mut H) {
        self.0.hash(state);
    }
}

impl Equivalent<Text> for Sought<'_> {
    ghost equivalent = { λ sought text. bytes_eq sought.0.now text };

    ghost respects_hash = { λ sought text h. ap fed.str ((bytes_decides sought.0.now text).0 h) };

    ghost respects_eq = { λ sought x y. nat_list_eq_equiv.congr sought.0.now x y };

    fn equivalent(&self, key: &Text) -> bool {
        self.0 == key.as_str()
    }
}
