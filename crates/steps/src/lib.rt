// A step of the memory machine, from the words of a term and a store of cells: counting and choosing moves, building the
// successor, renewing the cells (document 01, "Moves, in order"; "Memory and the history machine").
#![tactic(auto)]

pub mod counting;
pub mod moving;
pub mod renewing;
pub mod storing;
