//! The laws that the pages of this repository name as results, each as the contract of a function that does nothing: a law is
//! proved for certain only where a contract names it. No program calls them.
#![tactic(auto)]

pub mod graphs;
pub mod histories;
pub mod images;
pub mod limits;
pub mod numbers;
pub mod scripts;
