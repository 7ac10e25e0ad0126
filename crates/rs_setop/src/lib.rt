//! The cores of the set operators. Each draws the rows of two sides, each in the order of its keys, and gives the rows of
//! UNION ALL, UNION, INTERSECT or EXCEPT in the order of their keys, each once no row still to come can change it.
//!
//! Its promise: which side each core asks, what it gives, and exactly which asks it makes, in which order.
#![tactic(auto)]

mod answer_laws;
mod compared;
mod compared_laws;
mod heads;
mod held;
mod reached;
mod union;
mod union_laws;

pub use answer_laws::{set_answers_rise, set_rows_can_be_sorted_first};
pub use compared::{Choice, Compared, ExceptCore, IntersectCore, OtherRows, SharedRows};
pub use compared_laws::{
    asks_of_comparison_are_exact, comparison_gives_the_next_answer, comparison_takes_ends,
    comparison_takes_rows, new_comparison_stands,
};
pub use heads::Heads;
pub use held::{Head, HeldRow};
pub use union::{AllRows, FirstRows, Merged, Repeats, UnionAllCore, UnionCore};
pub use union_laws::{
    asks_of_union_are_exact, new_union_stands, union_gives_the_next_answer, union_takes_ends,
    union_takes_rows,
};
