// The cells of a store: computed anew by the functions' expressions, put there from a memory, and written into one
// (document 01, "Memory and the history machine").
#![tactic(auto)]

ghost use Rattle.std.specs.Prelude.{◌≡◌, ◌+◌, ◌*◌, ◌%◌, ◌≤◌, ◌<◌, length, get_or};
ghost use Rattle.tables.specs.Layout.{label_count, function_count};
ghost use Rattle.declarations.specs.Directory.{row_width};
ghost use Rattle.expressions.specs.Stores.{now_place};
ghost use Rattle.cells.specs.Filling.{Fills};
ghost use Rattle.cells.specs.Frames.{CopiedApart};
ghost use Rattle.cells.specs.Preparing.{Prepared, ready_word, Loaded, Saved, Loading};

use expressions::store;
use framing::fill_function;
use tables::layout::AT_LABELS;
use tables::{entry, functions, labels};
use words::word_at;
use writing::put_words;

mod framing;

/// The attribute functions of a rule set: where their expressions are, and how many cells they have.
#[derive(Clone, Copy)]
pub struct Functions<'a> {
    /// The stream that the functions' expressions are in.
    pub words: &'a [u16],
    /// The directory, with a row of `width` words for each function: how many cells it has, where they begin among all cells, and
    /// where each of its expressions is.
    // Stays: columns 0 and 1 are read at i % row_words in `ready_word`: a store's row has the same two numbers in the same order.
    pub directory: &'a [u32],
    /// How many words a row of the directory has.
    pub width: usize,
    /// How many functions there are.
    pub count: usize,
    /// How many cells they have together.
    pub cells: usize,
    pub ghost few_words: { length words.now ≤ 65535 },
    pub ghost narrow: { width ≤ 256 },
    pub ghost few: { count ≤ 16 },
    pub ghost few_cells: { cells ≤ 65499 },
}

impl<'a> Functions<'a> {
    /// The functions that a rule set's tables and directory are of: a row has three words, and one more for each label.
    // Stays: what is asked are the facts of the fields that are made here; after that only public functions of the words alone ask for one of them.
    pub fn of(words: &'a [u16], tables: &[u32], directory: &'a [u32], cells: usize) -> Functions<'a>
        requires { (length words.now ≤ 65535) × (cells ≤ 1024) × (label_count tables.now ≤ 64) × (function_count tables.now ≤ 16) }
        ensures { (result.words.now ≡ words.now) × (result.directory.now ≡ directory.now) × (result.width ≡ row_width (label_count tables.now)) × (result.count ≡ function_count tables.now) × (result.cells ≡ cells) }
    {
        Functions {
            words,
            directory,
            width: AT_LABELS + labels(tables),
            count: functions(tables),
            cells,
        }
    }
}

// All cells, by the expressions in column j of the directory: function by function, element by element. Word 0 of the store is the
// function's parameter, and changes.
// Stays, here and below: that a lent array keeps its length is said by each function that writes into one. It is a fact of what the array was and what it is
// then, and a field of a struct holds facts of one moment.
pub fn fill(functions: &Functions, m: &mut [u16], j: usize)
    requires { j ≤ 256 }
    ensures { (length m.new ≡ length m.old) × Fills functions.now.words.now functions.now.directory.now functions.now.width j functions.now.count m.old m.new }
{
    for f in 0..functions.count {
        let left = entry(functions.directory, functions.width * f + j) as usize;
        fill_function(functions.words, m, f, left);
    }
}

// ── cells copied ──

// The k cells from one place on as those from another.
// Stays word by word: copy_within calls memmove, and the library promises C hosts to call memcpy and memset only (host/eb3.h, Linking).
// Stays with two places and k: both parts are of one array, which each caller would have to split.
pub fn copy_cells(m: &mut [u16], from: usize, at: usize, k: usize)
    requires { (from + k ≤ length m.old) × (at + k ≤ length m.old) }
    ensures { CopiedApart m.old m.new from at k }
{
    for i in 0..k {
        m[at + i] = m[from + i];
    }
}

// ── a store made ready ──

// Word i of a store made ready, below the cells.
fn ready_word(functions: &Functions, i: usize) -> u16
    ensures { result ≡ ready_word functions.now.directory.now functions.now.width functions.now.count functions.now.cells i }
{
    if i < store::OLD_CELLS {
        return u16::MAX;
    }
    if i < store::ROWS {
        return (store::CELLS + functions.cells) as u16;
    }
    let f = (i - store::ROWS) / store::ROW_WORDS;
    if f < functions.count {
        return (entry(
            functions.directory,
            functions.width * f + i % store::ROW_WORDS,
        ) % 65536) as u16;
    }
    0
}

// A store for the functions' cells. Nothing is done where there is no room for the words below the cells.
// Stays by place: the words below the cells are a part of the store, and of a part that was lent the contract would have to make the whole again.
pub fn lay(functions: &Functions, m: &mut [u16])
    ensures { (length m.new ≡ length m.old) × (now_place ≤ length m.old → Prepared functions.now.directory.now m.old m.new functions.now.width functions.now.count functions.now.cells) }
{
    if m.len() < store::CELLS {
        return;
    }
    for i in 0..store::CELLS {
        m[i] = ready_word(functions, i);
    }
}

// ── memories ──

// k words that the memory has.
// Stays beside decode of blocks: with the part of m lent to that, laws would have to say here of the whole store what `Loading` says, in place of this loop.
// Stays with the place and k, and not the part of m lent: the contract says of the whole array what it is then. So do those of `load` and `save`, which are
// public, and do what there is room for.
fn load_words(memory: &[u8], m: &mut [u16], at: usize, k: usize)
    requires { (at + k ≤ length m.old) × (2 * k ≤ length memory.now) }
    ensures { Loading memory.now m.old m.new at k }
{
    for i in 0..k {
        m[at + i] = word_at(memory, i);
    }
}

// The first c words of a memory, from a place on, as far as there is room; 0 where the memory has none.
pub fn load(memory: &[u8], m: &mut [u16], at: usize, c: usize)
    ensures { Loaded memory.now m.old m.new at c }
{
    if m.len() < at {
        return;
    }
    let n = c.min(m.len() - at);
    let k = n.min(memory.len() / 2);
    load_words(memory, m, at, k);
    m[at + k..at + n].fill(0);
}

// The c cells are written at the beginning of a lent memory, if there is room.
pub fn save(m: &[u16], memory: &mut [u8], c: usize)
    ensures { Saved m.now memory.old memory.new c }
{
    if m.len() < store::CELLS || m.len() - store::CELLS < c {
        return;
    }
    let end = store::CELLS + c;
    put_words(&m[store::CELLS..end], memory);
}
