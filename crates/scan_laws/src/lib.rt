//! What the scan of a page does to a heap in a collection: its words are such as a scan goes over, and the records of the scan keep it. It
//! has definitions and laws alone. Its function does nothing: it names by its contract the law in whose words the others are stated.
#![tactic(auto)]

pub mod scans;
