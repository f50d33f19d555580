//! The scan of a page in a collection: which records redirect the fields of its gray objects to the current space.
#![tactic(auto)]

mod destinations;
mod page_scan;
mod plan;
mod reading;
mod scan;
mod scan_error;
mod spaces;
mod spelling;

pub use page_scan::{PageCopies, PageScan};
pub use scan::{next_gray_page, plan_scan};
pub use scan_error::ScanError;
