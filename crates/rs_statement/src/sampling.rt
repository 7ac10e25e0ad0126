/// Who scores the sample by which the plan of a query is chosen, and the seed by which its rows are taken. The same seed takes the
/// same rows, whoever scores them.
#[derive(Clone, Copy)]
pub enum Sampling {
    /// The scorer of the run: these are calls like any others.
    ByScores(u64),
    /// The formulas of the predicates, so nobody is called. A formula guesses what the scorer would answer.
    ByGuesses(u64),
}
