// The codes of a rule stream, of guards and of given terms, by their names (document 01, "Codes stand before their operands").
// Stays in numbers, and usize: words that are read are matched as `words::first` gives them, which is public and keeps its type; a word that is written is
// cast in place. No enum: std has no derived TryFrom, so that 25 arms by hand would make one of a word, and then a second match would read it.
#![tactic(auto)]

// ── data ──

pub const UNDEFINED: usize = 0;

pub const CONSTANT: usize = 1;

pub const VARIABLE: usize = 2;

pub const SUM: usize = 3;

pub const DIFFERENCE: usize = 4;

pub const IF: usize = 5;

pub const NOW: usize = 6;

pub const BEFORE: usize = 7;

// ── conditions ──

pub const EQUAL: usize = 8;

pub const LESS: usize = 9;

pub const AND: usize = 10;

pub const OR: usize = 11;

pub const NOT: usize = 12;

pub const TRUE: usize = 13;

// ── terms ──

pub const INTERNAL: usize = 20;

pub const ACTION: usize = 21;

pub const SEQUENCE: usize = 22;

pub const CHOICE: usize = 23;

pub const STAR: usize = 24;

pub const PARALLEL: usize = 25;

pub const GUARD: usize = 26;

pub const CHOICE_OVER: usize = 27;

pub const PARALLEL_OVER: usize = 28;

pub const CALL: usize = 29;

pub const DONE: usize = 30;
