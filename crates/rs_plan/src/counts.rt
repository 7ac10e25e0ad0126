/// What a node of a plan has done so far.
#[derive(Clone, Copy, Debug, PartialEq, Eq)]
pub struct Counts {
    /// How often it was asked for a row.
    pub asked: u128,
    /// How many rows it gave.
    pub gave: u128,
    /// How many calls of the scorer it made itself: 0 where it is no rank operator.
    pub calls: u128,
    /// How many rows it drew from its table or index: 0 where it is no scan.
    pub drawn: u32,
}
