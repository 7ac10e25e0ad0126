/// What an operator of one input does next.
#[derive(Clone, Copy, Debug, PartialEq, Eq)]
pub enum Ask {
    /// It needs one more row of its input.
    Need,
    /// A row can be taken.
    Ready,
    /// No row is left.
    End,
}

/// What an operator of two inputs does next.
#[derive(Clone, Copy, Debug, PartialEq, Eq)]
pub enum JoinAsk {
    /// It needs one more row of its left input.
    NeedLeft,
    /// It needs one more row of its right input.
    NeedRight,
    /// A row can be taken.
    Ready,
    /// No row is left.
    End,
}
