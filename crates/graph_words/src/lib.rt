//! Graphs that stand in words: where the objects of a graph stand, in a space and in the area of the transaction that made them, and
//! what calls of a transaction change of it. It has definitions and their laws alone, and no code.
#![tactic(auto)]
