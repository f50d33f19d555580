//! What an image is: no heap's, damaged first at one place, or shaped, whatever its bytes. It has definitions and laws alone. Its functions do
//! nothing: each names a law by its contract, since a law that a contract names can't be lost.
#![tactic(auto)]

pub mod kinds;
