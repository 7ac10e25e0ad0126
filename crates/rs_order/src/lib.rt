//! Lists in an order of keys: what lists whose keys rise have in common. The definitions are over any items, a key of
//! each, and an order of the keys; the laws hold of every total order.
//!
//! Its promise: it has laws and no code that runs: what a list is that is sorted by keys, what two such lists share,
//! how far one has to be asked into, and what the merge of two is.
#![tactic(auto)]

mod asks;
mod climbing;
mod merging;
mod schedule;
mod sorting;

pub use asks::{
    asks_are_exact, asks_grow, bars_rise, those_before_begin_those_further, those_before_come_first,
};
pub use climbing::{
    climbing_lists_ascend, first_items_are_shared, keys_come_before_later_ones,
    same_items_make_one_list,
};
pub use merging::{
    merged_ascends, merged_climbs, merged_has_the_items, merges_go_on_with_the_lesser,
};
pub use schedule::{schedules_grow, schedules_have_the_asks};
pub use sorting::{
    put_climbs, put_is_permutation, sorted_climbs, sorted_has_the_items, sorted_is_permutation,
    sorted_keeps_places, sorted_twice_is_sorted_once, sorting_commutes_with_filtering,
    sorting_commutes_with_mapping,
};
