ghost use Rattle.std.specs.Prelude.{◌≡◌, ◌≤◌, ℕ, Bool, List, true, nat_abs, slice_get};
ghost use Rattle.rs_value.specs.Number.{greatest_int};
ghost use Rattle.rs_value.specs.declared.kind.Kind.{Kind as ValueKind};
ghost use Rattle.rs_value.specs.declared.kind.Kind.TheVariants as kind;
ghost use Rattle.rs_value.specs.declared.value.Value.{Value as Valued};
ghost use Rattle.rs_expr.specs.Meaning.{argument_number, argument_text};
ghost use Rattle.rs_expr.specs.Uses.{has_argument};

use rs_value::Value;

/// What lends a formula its arguments, by their places, which count from 0. Who has the arguments where they need not be copied, as
/// in the cells of a table, makes no list of values.
pub trait Arguments {
    /// Whether there is an argument of this kind at a place, and the arguments as values.
    ghost has: { Self → ValueKind → ℕ → Bool };

    ghost values: { Self → List Valued };

    /// The number at a place, which is in range.
    fn number(&self, place: u16) -> i64
        requires { has self.now kind.Int place ≡ true }
        ensures value { result ≡ argument_number (slice_get (values self.now) place) }
        ensures within { nat_abs result ≤ greatest_int };

    /// The bytes of the text at a place.
    fn text(&self, place: u16) -> &[u8]
        requires { has self.now kind.Text place ≡ true }
        ensures { result.now ≡ argument_text (slice_get (values self.now) place) };
}

impl Arguments for &[Value] {
    ghost has = { λ args. has_argument args.now };

    ghost values = { λ args. args.now };

    fn number(&self, place: u16) -> i64 {
        match &self[place as usize] {
            Value::Int(number) => *number,
            Value::Text(_) => 0,
        }
    }

    fn text(&self, place: u16) -> &[u8] {
        match &self[place as usize] {
            Value::Int(_) => &[],
            Value::Text(text) => text.bytes(),
        }
    }
}
