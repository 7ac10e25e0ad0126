use crate::sampling::Sampling;

/// How the queries of a script are evaluated.
#[derive(Clone, Copy)]
pub enum Evaluating {
    /// Every combination of rows is scored, and then the rows are put.
    Plainly,
    /// A sample is taken, and then rows are asked of the plan that is chosen by it, one after another, and each is put before the
    /// next one is asked for.
    Planned(Sampling),
}
