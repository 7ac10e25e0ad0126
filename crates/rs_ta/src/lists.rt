ghost use Rattle.std.specs.Prelude.{◌≡◌, [], ◌∷◌, length};
ghost use Rattle.rs_ta.specs.Lists.{AreCounted, AreRanked, AreSame, AreTold, IsList, IsRaisedAt, IsRow, ListsState, list_at, next_entry, rows_in, score_of};

/// A random access: a row is looked up in a list.
#[derive(Clone, Copy, Debug, PartialEq, Eq)]
pub struct Lookup {
    pub row: u32,
    pub list: u8,
}

/// One to eight lists of the rows of one table, each by score, the greatest first, and at equal scores by number. Lists and
/// rows count from 1.
///
/// An access may cost something, so each is counted, for each list and kind of access.
pub trait Lists {
    /// The lists, how many accesses each had, and the random accesses one after another, where the object tells them. A count stands
    /// still at 2^64 - 1. An object may tell no random accesses, or cease to tell them at one of them, as for want of memory.
    ghost state: { Self → ListsState };

    /// How many lists there are.
    fn lists(&self) -> u8
        ensures count { result ≡ length (state self.now).lists }
        ensures ranked { AreRanked (state self.now).lists };

    /// The score and the row at the next place of a list, or none at its end, which isn't counted.
    ///
    /// # Errors
    ///
    /// - `None`: exactly at the end of the list.
    fn sorted(&mut self, list: u8) -> Option<(u32, u32)>
        requires { IsList (state self.old).lists list }
        ensures entry { result ≡ next_entry (state self.old) list }
        ensures lists { (state self.new).lists ≡ (state self.old).lists }
        ensures counts { AreCounted (state self.old).lists list result (state self.old).sorted_count (state self.new).sorted_count }
        ensures others { AreSame (state self.old).lists (state self.old).random_count (state self.new).random_count }
        ensures told { (state self.new).told ≡ (state self.old).told };

    /// The score of a row in a list.
    fn random(&mut self, list: u8, row: u32) -> u32
        requires list { IsList (state self.old).lists list }
        requires row { IsRow (rows_in (state self.old).lists) row }
        ensures score { result ≡ score_of row (list_at (state self.old).lists list) }
        ensures lists { (state self.new).lists ≡ (state self.old).lists }
        ensures counts { IsRaisedAt (state self.old).lists list (state self.old).random_count (state self.new).random_count }
        ensures others { AreSame (state self.old).lists (state self.old).sorted_count (state self.new).sorted_count }
        ensures told { AreTold (record { row = row; list = list } ∷ []) (state self.old).told (state self.new).told };
}
