// The store: all that an expression is evaluated in, in one array of words (document 01, "Values and conditions"; "Memory and the history machine";
// specs/Stores.antt). These are the places in it.

/// Variable 0, the parameter of the function whose cells are computed.
pub const PARAMETER: usize = 0;

/// Variable 1, the first argument of the action; 65,535 where there is none.
pub const FIRST_ARGUMENT: usize = 1;

/// Variable 2, the second argument of the action.
pub const SECOND_ARGUMENT: usize = 2;

/// Where the cells begin that `before` reads.
pub const OLD_CELLS: usize = 3;

// The most functions of a rule set, and the most cells of one: its parameter's domain has at most 64 elements (document 01, "Blocks and the rule stream", items
// 2 and 4).
const MOST_FUNCTIONS: usize = 16;

const MOST_ELEMENTS: usize = 64;

/// From here a row for each function: how many cells it has, and where they begin among all cells.
pub const ROWS: usize = OLD_CELLS + 1;

/// How many words a row has.
pub const ROW_WORDS: usize = 2;

/// From here, after the rows, the cells that `now` reads.
pub const CELLS: usize = ROWS + ROW_WORDS * MOST_FUNCTIONS;

// The most cells of a rule set.
const MOST_CELLS: usize = MOST_FUNCTIONS * MOST_ELEMENTS;

/// How many words a store has that holds up to 1,024 cells twice: those that `now` reads, and after them those that `before` reads.
pub const WORDS: usize = CELLS + 2 * MOST_CELLS;

/// How many words a store has that holds up to 1,024 cells once, those that `now` reads.
pub const NEW_WORDS: usize = CELLS + MOST_CELLS;

/// How many cells are few: a store for them is smaller.
pub const FEW_CELLS: usize = 64;

/// How many words a store has that holds up to 64 cells once.
pub const FEW_WORDS: usize = CELLS + FEW_CELLS;
