use crate::candidate::Candidate;
use crate::planning::Planning;

/// Where plans of a block are looked for: the block of this number, for each mask of entries the terms that speak of these alone,
/// and what was found for lesser signatures.
#[derive(Clone, Copy)]
pub(crate) struct Search<'a> {
    pub planning: Planning<'a>,
    pub number: u8,
    pub inside: &'a [u8; 64],
    pub places: &'a [Option<Candidate>],
}
