//! The order of transactions that run side by side under strict two-phase locking: they are serial in the order of their seals. It has definitions and
//! their laws alone, and no code.
//!
//! `specs/SerialOrder.antt` has the theorem in its words: what it is for a history to be under strict two-phase locking (`IsTwoPhase`),
//! to have plain replies (`HasPlainReplies`), and to be serial in the order of the seals (`IsCommitOrdered`). What a transaction holds
//! and what conflicts with that is said in `graph_model/specs/Locking.antt`, without a lock table. The theorem is proved in
//! `proofs/OrderLaws.antt` and, for the commit that a failing disk leaves in doubt, `proofs/CommitLaws.antt`, from the laws of one call
//! in `proofs/CallLaws.antt` and of a run in `proofs/LockingLaws.antt`.
//!
//! A heap that locks in this way can rely on the laws of each place of its history: `proofs/PlaceLaws.antt`; and `proofs/HoldsLaws.antt`, how
//! what is held changes as a table of locks does. That locks are kept until a transaction ends is in `proofs/StrictLaws.antt`.
#![tactic(auto)]
