use crate::candidate::Candidate;
use crate::extent::Extent;
use crate::planning::Planning;

/// Where plans of all entries are looked for that have operators for terms above a plan that drops duplicates, or above the set
/// operator: which plans are meant, what was found of fewer terms, and which row of the places that is.
#[derive(Clone, Copy)]
pub(crate) struct Row<'a> {
    pub planning: Planning<'a>,
    pub extent: Extent,
    pub entries: u8,
    pub places: &'a [Option<Candidate>],
}
