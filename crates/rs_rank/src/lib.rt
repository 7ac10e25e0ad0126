//! Ranking: the keys by which every operator draws its rows, the bounds that they hold, and the stable order of scored
//! rows.
//!
//! Its promise: the stable order is the one list of the same rows that is in order and keeps ties as they were; the
//! order of keys is total; and the merge of two keys keeps their order.
#![tactic(auto)]

mod answer;
mod ask;
mod ids;
mod ids_laws;
mod key;
mod key_laws;
mod laws;
mod mask;
mod matcher;
mod row;
mod scored_row;
mod stable;
mod turn_laws;
mod weight_laws;
mod weights;

pub use answer::Answer;
pub use ask::{Ask, JoinAsk};
pub use ids::Ids;
pub use ids_laws::{equal_merged_ids_have_equal_sides, merged_ids_have_both_sides};
pub use key::Key;
pub use key_laws::{
    equal_keys_have_equal_rows, key_order_is_total, merged_rows_have_merged_keys,
    merging_keeps_the_order, merging_keeps_the_strict_order,
};
pub use laws::{
    stable_is_permutation, stable_is_sorted, stable_is_sorted_by_key, stable_is_sorted_by_score,
    stable_is_unique, stable_keeps_equals,
};
pub use mask::{are_disjoint, has_number, mask_of, union};
pub use matcher::Matcher;
pub use row::RankRow;
pub use scored_row::ScoredRow;
pub use stable::{Scored, sort_stably};
pub use turn_laws::turns_are_the_asks;
pub use weight_laws::{
    no_sum_passes_the_limit, one_more_term, terms_are_inside_or_outside, terms_of_two_masks_add_up,
};
pub use weights::Weights;
