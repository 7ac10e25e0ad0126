use crate::no_answer::NoAnswer;
use crate::pass::Pass;

/// The last run, how many scores were learned before it, and why its question has no answer, if it missed a score.
#[derive(Drop)]
pub struct Asked {
    pub pass: Pass,
    pub answers: usize,
    pub unanswered: Option<NoAnswer>,
}
