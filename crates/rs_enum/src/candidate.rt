/// How a plan of a signature is made of the plans of lesser ones.
#[derive(Clone, Copy, Debug)]
pub(crate) enum Choice {
    SeqScan { entry: u8 },
    RankScan { entry: u8, term: u8, index: u8 },
    /// An operator for a term, over the plan without it.
    Rank { term: u8 },
    /// A join whose left side has these entries.
    HashJoin { left: u8 },
    NestedJoin { left: u8 },
    /// What operators for terms stand above where duplicates are dropped, or where there are two blocks: the plan that drops
    /// duplicates, or the set operator.
    Base,
}

/// A plan that could be kept of a signature, with its cost.
#[derive(Clone, Copy, Debug)]
pub(crate) struct Candidate {
    pub cost: u128,
    pub choice: Choice,
}

/// What is kept of the two sides of a join.
#[derive(Clone, Copy, Debug)]
pub(crate) struct Sides {
    pub left_cost: u128,
    pub right_cost: u128,
    pub left_rows: u128,
    pub right_rows: u128,
}
