/// Where questions go, where answers come from, and where known scores are kept.
#[derive(Drop)]
pub struct Channel<Q, A, K> {
    pub questions: Q,
    pub answers: A,
    pub scores: K,
}
