//! Tests of the crates for objects, transactions, locks, and what a seal promotes.
#![tactic(auto)]

#[cfg(test)]
mod areas;
#[cfg(test)]
mod committed_words_tests;
#[cfg(test)]
mod compare;
#[cfg(test)]
mod engine_tests;
#[cfg(test)]
mod graph_print_tests;
#[cfg(test)]
mod heap_spaces_tests;
#[cfg(test)]
mod object_layout_tests;
#[cfg(test)]
mod object_locks_tests;
#[cfg(test)]
mod sealing_tests;
#[cfg(test)]
mod stability_tracker_tests;
#[cfg(test)]
mod txn_table_tests;
#[cfg(test)]
mod volatile_area_tests;
