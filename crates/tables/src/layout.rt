// Where the tables of a rule set hold what: its domains, labels and processes, and how many functions it has (document 01, "Blocks and the
// rule stream", items 2 to 5). The tables are one array of numbers, of fixed size since there is no heap. These are the places in it, each made of the
// one before and of how many there may be; what they hold is `declared` and `callee` of specs/Tables.antt. A clause names a place by specs/Layout.antt,
// which has the same places.
// Stays, and so does the store (store.rt of expressions), an array with places and no struct of arrays: public functions take it, and their contracts and the
// specification go by its places, so that what is public keeps its promise.

ghost use Rattle.std.specs.Prelude.{◌≡◌, ◌+◌, ◌*◌, ◌≤◌, ◌<◌};
ghost use Rattle.tables.specs.Layout.{label_words, label_place, process_place};

// The most domains, labels and processes of a rule set, and the most parameters of a label and of a process.
const MOST_DOMAINS: usize = 16;

/// The most labels of a rule set.
pub const MOST_LABELS: usize = 64;

const MOST_PROCESSES: usize = 32;

const MOST_LABEL_PARAMETERS: usize = 2;

const MOST_PROCESS_PARAMETERS: usize = 4;

/// How many domains there are; the size of each follows.
pub const DOMAINS: usize = 0;

/// The size of the first domain.
pub const SIZES: usize = DOMAINS + 1;

/// How many labels there are; their rows follow.
pub const LABELS: usize = SIZES + MOST_DOMAINS;

// The first label's row: how many parameters it has, and their domains.
const LABEL_ROWS: usize = LABELS + 1;

// How many numbers a label's row has.
const LABEL_WORDS: usize = 1 + MOST_LABEL_PARAMETERS;

/// How many functions there are.
pub const FUNCTIONS: usize = LABEL_ROWS + LABEL_WORDS * MOST_LABELS;

/// How many processes there are; their rows follow.
pub const PROCESSES: usize = FUNCTIONS + 1;

// The first process's row: how many parameters it has, and their domains; then, at the places in a row that follow here, what its term measures
// and where it begins.
const PROCESS_ROWS: usize = PROCESSES + 1;

/// In a process's row: the size of its term, cut off at 65,536 as the next two are.
pub const SIZE: usize = 1 + MOST_PROCESS_PARAMETERS;

/// In a process's row: the reach of its term.
pub const REACH: usize = SIZE + 1;

/// In a process's row: the breadth of its term.
pub const BREADTH: usize = REACH + 1;

/// In a process's row: how many words of the stream are left where its term begins.
pub const BODY: usize = BREADTH + 1;

// How many numbers a process's row has.
const PROCESS_WORDS: usize = BODY + 1;

/// How many numbers the tables are.
pub const TABLES: usize = PROCESS_ROWS + PROCESS_WORDS * MOST_PROCESSES;

/// Where the row of label l begins, if the first label's begins at this place.
pub fn label_place_from(at: usize, l: usize) -> usize
    requires { at + label_words * l ≤ 18446744073709551615 }
    ensures { result ≡ at + label_words * l }
{
    at + LABEL_WORDS * l
}

/// Where the row of label l begins.
pub fn label_place(l: usize) -> usize
    requires { l < 4294967296 }
    ensures { result ≡ label_place l }
{
    label_place_from(LABEL_ROWS, l)
}

/// Where the row of process p begins.
pub fn process_place(p: usize) -> usize
    requires { p < 4294967296 }
    ensures { result ≡ process_place p }
{
    PROCESS_ROWS + PROCESS_WORDS * p
}

// The directory has a row for each function: how many cells it has, and then, at the places in a row that follow here, two numbers and one more for each label.

/// In a function's row of the directory: where its cells begin among all cells.
pub const FIRST_CELL: usize = 1;

/// In a function's row: how many words of the stream are left where its expression for the empty trace begins.
pub const AT_START: usize = 2;

/// In a function's row: the same of its expression for the first label; those for the other labels follow.
pub const AT_LABELS: usize = 3;
