//! The objects that a transaction makes: volatile ones, which end with it unless its seal promotes them.
#![tactic(auto)]

mod area;
mod area_error;

pub use area::Area;
pub use area_error::AreaError;
