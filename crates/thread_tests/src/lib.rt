//! Tests of a heap that threads share, and of the command that plays a script by threads, on disks in memory.
#![tactic(auto)]

#[cfg(test)]
mod bank;
#[cfg(test)]
mod bank_tests;
#[cfg(test)]
mod busy_tests;
#[cfg(test)]
mod drawn;
#[cfg(test)]
mod drawn_tests;
#[cfg(test)]
mod fault_tests;
#[cfg(test)]
mod meeting;
#[cfg(test)]
mod playing;
#[cfg(test)]
mod run_tests;
#[cfg(test)]
mod shared_tests;
#[cfg(test)]
mod status_tests;
