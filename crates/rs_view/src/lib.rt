//! Views: the first rows of a query's answer, kept while tables grow.
//!
//! Its promise: a view has exactly the first rows of the answer from scratch over the tables as they were when it was made or
//! grew last, and each growth calls the scorer for the combinations that have a new row, and for no others.
#![tactic(auto)]

mod fresh;
mod keep;
mod keepable;
mod laws;
mod merge;
mod view;

pub use keepable::is_keepable;
pub use laws::{
    nothing_new_asks_nothing, views_ask_nothing_twice, views_go_on_to_stand,
    views_have_their_answers,
};
pub use view::View;
