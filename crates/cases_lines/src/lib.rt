//! What the programs share that answer cases: the loop over the lines of standard input, what words of a line stand for,
//! and the faults that end a program.
//!
//! Each line is printed as it is, and behind it what its case gives. A line that is empty or begins with `#` has no case.
//!
//! Its promise: which lines have a case, what a line is cut into, which numbers its words are, what one escape stands
//! for, and that a fault ends a program with a status other than that of success.
#![tactic(auto)]

mod escape;
mod fault;
mod lines;
mod words;

pub use escape::{bytes_of, print_call, print_escaped, read_escaped, read_times, text_of};
pub use fault::Fault;
pub use lines::{Cases, answer_lines, no_memory};
pub use words::{
    columns_of, count_of, cut_at, cut_word, number_of, numbers_of, small_number_of, value_of,
};
