//! Tests of scripts, loads, command words, and histories: their commits in the order of their seals, the graph of what is sealed, and in which form
//! their entries are kept.
#![tactic(auto)]

#[cfg(test)]
mod brief_entries_tests;
#[cfg(test)]
mod command_words_tests;
#[cfg(test)]
mod compare;
#[cfg(test)]
mod history_tests;
#[cfg(test)]
mod load_tests;
#[cfg(test)]
mod script_text_tests;
#[cfg(test)]
mod sealed_graph_tests;
#[cfg(test)]
mod slow_heap_tests;
