//! What the steps of sessions side by side keep of the core of a heap, whichever of their events the disk cuts short. It has
//! definitions and laws alone, and no code.
#![tactic(auto)]
