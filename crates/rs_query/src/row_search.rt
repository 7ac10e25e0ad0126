/// How a step finds the rows that fit its tie.
#[derive(Clone, Copy)]
pub(crate) enum RowSearch {
    /// By a look at each row.
    Scan,
    /// By lists of the rows of equal cells in the columns of one equality.
    OneEquality,
    /// By lists of the rows of equal cells in the columns of all equalities of the two entries.
    AllEqualities,
}
