/// What a check of a certificate answers. Of several parts that fail, the first in this order is told.
#[derive(Clone, Copy, Debug, PartialEq, Eq)]
pub enum Verdict {
    /// The certificate proves its answer.
    Yes,
    /// The scores of a side, 1 or 2, rise at this row, counted from 1.
    Order { side: u8, row: u32 },
    /// The pairs aren't the first ones of the rows, or more than are wanted.
    Pairs,
    /// There are fewer pairs than are wanted, though the rows have more, or further ones could come.
    Short,
    /// The last pair comes behind that of the last left row and the first right one. So a left row that wasn't drawn could make a pair
    /// that comes before the last one, unless the sums of the two are equal.
    Left,
    /// A right row that wasn't drawn could make a pair that comes before the last one.
    Right,
}
