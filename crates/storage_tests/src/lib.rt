//! Tests of the storage crates: disks, gates, the log and its records, pages, streams.
#![tactic(auto)]

#[cfg(test)]
mod compare;
#[cfg(test)]
mod disk_file_tests;
#[cfg(test)]
mod disk_model_tests;
#[cfg(test)]
mod disks;
#[cfg(test)]
mod gate_slot_tests;
#[cfg(test)]
mod gated_log_tests;
#[cfg(test)]
mod heap_io_tests;
#[cfg(test)]
mod image_plan_tests;
#[cfg(test)]
mod log_machine_tests;
#[cfg(test)]
mod log_records_tests;
#[cfg(test)]
mod logged_pages_tests;
#[cfg(test)]
mod page_cache_tests;
#[cfg(test)]
mod page_store_tests;
