//! What an open heap keeps in memory is what a core says: each event is answered as the core answers it, and leaves what the core is
//! then. It has definitions and their laws alone, and no code.
#![tactic(auto)]
