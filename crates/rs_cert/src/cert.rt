use rs_feed::FeedRow;
use rs_value::List;

/// The rows that were drawn of a feed, in the order of drawing, and whether a draw said that there are no more.
#[derive(Debug, Drop)]
pub struct CertSide {
    pub rows: List<FeedRow>,
    pub ended: bool,
}

/// An answer of the join of two feeds with the rows that were drawn for it: how many pairs were wanted, and the pairs by the
/// numbers of their rows, from 1, in their order.
#[derive(Debug, Drop)]
pub struct Cert {
    pub k: u32,
    pub left: CertSide,
    pub right: CertSide,
    pub pairs: List<(u32, u32)>,
}
