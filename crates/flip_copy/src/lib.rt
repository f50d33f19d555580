//! The record of a flip, which begins a collection: the roots are copied into the other space, each with its words as they stand.
#![tactic(auto)]

mod flip_error;
mod flip_plan;
pub mod laws;
mod plan;

pub use flip_error::FlipError;
pub use flip_plan::FlipPlan;
pub use plan::plan_flip;
