//! Masks of the FROM entries and of the conjuncts of a block.

ghost use Rattle.std.specs.Prelude.{◌≡◌, ◌≤◌, length};
ghost use Rattle.rs_query.specs.Meaning.{AreInside, is_inside, conjuncts_within};
ghost use Rattle.rs_query.specs.Tables.{all_entries};

use crate::block::Block;

impl Block {
    /// The mask of all FROM entries.
    pub fn all_entries(&self) -> u8
        requires some { 1 ≤ length self.now.from }
        requires most { length self.now.from ≤ 6 }
        ensures { result ≡ all_entries self.now }
    {
        (1 << self.from.len()) - 1
    }

    /// The mask of the conjuncts that speak of entries in a mask alone. The first conjunct has the lowest bit. It takes no
    /// memory.
    pub fn within(&self, entries: u8) -> u32
        requires { length self.now.conjuncts ≤ 32 }
        ensures value { result ≡ conjuncts_within entries self.now.conjuncts }
        ensures inside { AreInside result entries self.now.conjuncts }
    {
        let mut mask = 0;
        for (place, conjunct) in self.conjuncts.items().iter().enumerate() {
            if is_inside(conjunct.entries(), entries) {
                mask += 1 << place;
            }
        }
        mask
    }
}

/// Whether all entries of a mask are in another one.
pub fn is_inside(entries: u8, mask: u8) -> bool
    ensures { result ≡ is_inside entries mask }
{
    entries & mask == entries
}
