//! Laws of the crates of the data, at the types that a query has.

use rs_catalog::rankings_are_in_order;
use rs_order::{
    asks_are_exact, asks_grow, bars_rise, climbing_lists_ascend, first_items_are_shared,
    keys_come_before_later_ones, merged_ascends, merged_climbs, merged_has_the_items,
    merges_go_on_with_the_lesser, put_climbs, put_is_permutation, same_items_make_one_list,
    schedules_grow, schedules_have_the_asks, sorted_climbs, sorted_has_the_items,
    sorted_is_permutation, sorted_keeps_places, sorted_twice_is_sorted_once,
    sorting_commutes_with_filtering, sorting_commutes_with_mapping,
    those_before_begin_those_further, those_before_come_first,
};
use rs_rank::{
    Key, equal_keys_have_equal_rows, key_order_is_total, merged_rows_have_merged_keys,
    merging_keeps_the_order, merging_keeps_the_strict_order, no_sum_passes_the_limit,
    one_more_term, terms_are_inside_or_outside, turns_are_the_asks,
};
use rs_scan::{index_rows_can_be_input, table_rows_can_be_input};
use rs_value::Text;

pub fn laws_hold_of_numbers() {
    same_items_make_one_list::<(u64, u32), u64>();
    first_items_are_shared::<(u64, u32), u64>();
    climbing_lists_ascend::<(u64, u32), u64>();
    sorted_climbs::<(u64, u32), u64>();
    sorted_has_the_items::<(u64, u32), u64>();
    sorted_is_permutation::<(u64, u32), u64>();
    sorted_twice_is_sorted_once::<(u64, u32), u64, u32>();
    sorted_keeps_places::<(u64, u32), u64, u32>();
    sorting_commutes_with_mapping::<u32, (u64, u32), u64>();
    sorting_commutes_with_filtering::<(u64, u32), u64>();
    merged_climbs::<(u64, u32), u64>();
    merged_ascends::<(u64, u32), u64>();
    merged_has_the_items::<(u64, u32), u64>();
    merges_go_on_with_the_lesser::<(u64, u32), u64>();
    those_before_come_first::<(u64, u32), u64>();
    those_before_begin_those_further::<(u64, u32), u64>();
    asks_are_exact::<(u64, u32), u64>();
    asks_grow::<(u64, u32), u64>();
    bars_rise::<(u64, u32), u64>();
    schedules_have_the_asks::<u64>();
    schedules_grow::<u64>();
}

pub fn laws_hold_of_pairs() {
    put_is_permutation::<(u32, u64), u32>();
    put_is_permutation::<(Key, Text), Key>();
    put_climbs::<(u32, u64), u32>();
    put_climbs::<(Key, Text), Key>();
    keys_come_before_later_ones::<(u32, u64), u32>();
    keys_come_before_later_ones::<(Key, Text), Key>();
}

pub fn laws_hold_of_keys() {
    key_order_is_total();
    equal_keys_have_equal_rows();
    merging_keeps_the_order();
    merging_keeps_the_strict_order();
    merged_rows_have_merged_keys();
    terms_are_inside_or_outside();
    no_sum_passes_the_limit();
    one_more_term();
    turns_are_the_asks::<Key>();
    turns_are_the_asks::<u64>();
    rankings_are_in_order();
    table_rows_can_be_input();
    index_rows_can_be_input();
}
