//! Runs whose missing scores are asked for: a run over the scores that are known, and where one is missing, a question, its
//! answer, and the run again.
//!
//! Its promise: each question is what a run over the scores that were known then missed, so none is asked twice; it ends
//! with one unanswered only where its put failed, a read failed, or the next line of the answers is no score, and says which;
//! what a run puts beyond what was put before goes out at once, before the next question; and where it ends, all that was put
//! is what the last run puts, over the scores that are known at the end.
#![tactic(auto)]

mod answer;
mod answer_line;
mod answering;
mod answers;
mod asked;
mod asking;
mod channel;
mod new_rows;
mod no_answer;
mod pass;
mod put_rows;
mod read_answers;
mod row_fault;
mod run_once;
mod stop;

pub use answer::{MOST_ANSWER, read_answer};
pub use answer_line::AnswerLine;
pub use answers::{Answers, ReadFault};
pub use asked::Asked;
pub use asking::ask_and_run;
pub use channel::Channel;
pub use no_answer::NoAnswer;
pub use pass::{Pass, Rerun};
pub use read_answers::ReadAnswers;
pub use stop::Stop;
