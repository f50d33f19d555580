//! What an open heap keeps in memory, why an event is refused by it, and what each event leaves of it. It has definitions alone, and no
//! code.
#![tactic(auto)]
