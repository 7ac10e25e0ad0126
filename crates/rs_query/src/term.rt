use rs_catalog::BoundArg;
use rs_value::List;

/// A term of ORDER BY: the worth of a predicate on arguments, times a weight from 1 to 1,000,000.
#[derive(Debug, Drop)]
pub struct Term {
    pub weight: u32,
    /// The predicate's number in the catalogue, counted from 0.
    pub predicate: u8,
    pub args: List<BoundArg>,
    /// What the worth is at most, as long as it isn't known.
    pub max: u32,
    /// The mask of the FROM entries of the columns among the arguments.
    pub entries: u8,
}
