//! Tests of the program's call `run`: what scripts print, on disks of memory that stop or fail, and on heaps that are kept.
#![tactic(auto)]

#[cfg(test)]
mod drawing;
#[cfg(test)]
mod drawn_tests;
#[cfg(test)]
mod flush_tests;
#[cfg(test)]
mod kept_tests;
#[cfg(test)]
mod load_tests;
#[cfg(test)]
mod playing;
#[cfg(test)]
mod run_tests;
#[cfg(test)]
mod status_tests;
#[cfg(test)]
mod stop_tests;
