//! Tests of collections through the program's call `run`: what scripts print when the spaces change their roles beside transactions, and
//! what is recovered after a stop within a collection.
#![tactic(auto)]

#[cfg(test)]
mod copied_tests;
#[cfg(test)]
mod drawn_tests;
#[cfg(test)]
mod exact_tests;
#[cfg(test)]
mod kept_tests;
#[cfg(test)]
mod playing;
#[cfg(test)]
mod row_tests;
#[cfg(test)]
mod stop_tests;
#[cfg(test)]
mod told;
