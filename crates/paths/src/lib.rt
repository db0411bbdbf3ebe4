// The words of a path by their names (document 01, "Moves, in order"; specs/Paths.antt): the decisions at the terms that have several ways to move.
// Stays in numbers, and usize: words that are read are matched as `words::first` gives them, which is public and keeps its type; a word that is written is
// cast in place. No enums: std has no derived TryFrom, so that each kind would need its arms by hand, and then a second match would read it.
#![tactic(auto)]

// ── at a choice ──

pub const CHOOSE_LEFT: usize = 0;

pub const CHOOSE_RIGHT: usize = 1;

// ── at a star ──

pub const END: usize = 0;

pub const ROUND: usize = 1;

// ── at a parallel ──

pub const BOTH_DONE: usize = 0;

pub const LEFT_MOVES: usize = 1;

pub const RIGHT_MOVES: usize = 2;

pub const BOTH_MOVE: usize = 3;
