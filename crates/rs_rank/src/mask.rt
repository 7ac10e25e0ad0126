//! Sets of entries or terms as masks. Entries and terms are numbered from 1; bit `i - 1` stands for number `i`.

ghost use Rattle.std.specs.Prelude.{◌≡◌, ◌≤◌, ◌↔◌, bit_or, IsTrue};
ghost use Rattle.rs_rank.specs.Masks.{AreDisjoint, has_number, mask_of};

/// The mask of one number alone, from 1 to 8.
pub fn mask_of(number: u8) -> u8
    requires least { 1 ≤ number }
    requires most { number ≤ 8 }
    ensures { result ≡ mask_of number }
{
    1 << (number - 1)
}

/// Whether a number from 1 to 8 is in a mask.
pub fn has_number(mask: u8, number: u8) -> bool
    requires least { 1 ≤ number }
    requires most { number ≤ 8 }
    ensures { result ≡ has_number mask number }
{
    (mask >> (number - 1)) % 2 == 1
}

/// The numbers of both masks.
pub fn union(left: u8, right: u8) -> u8
    ensures { result ≡ bit_or left right }
{
    left | right
}

/// Whether no number is in both masks.
pub fn are_disjoint(left: u8, right: u8) -> bool
    ensures { IsTrue result ↔ AreDisjoint left right }
{
    left & right == 0
}
