//! Pages that were stored with an LSN, and redo by it: which records a page lacks, and that pages on which all of these are redone are
//! the present ones. It has definitions and their laws alone, and no code.
#![tactic(auto)]
