//! The plain way to answer queries: everything is joined, filtered, scored and stably sorted.
//!
//! Its promise: the rows are those of the definition of the answer, by exactly its calls.
#![tactic(auto)]

mod answer;
mod best;
mod fault;
mod laws;
mod limited;
mod outputs;
mod rows;
mod scored;
mod sets;

pub use answer::answer_plainly;
pub use fault::PlainFault;
pub use laws::{answers_climb, rows_climb};
pub use outputs::block_answers;
pub use scored::scored_rows;
