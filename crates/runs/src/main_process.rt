// The run of a rule set's main process from the start: its term in words, its cells in a store, the lent buffers written at the end
// (document 01, "Operations": Run writes the last term, zeros up to main's G, and the cells). Main is unfolded in one spare buffer,
// of which only whole words are written; the successors of a term with masks are built there, too. Each number is counted at its reader
// (document 02, K1).
// Stays: that words are at most 65,535 is a clause of each function here, for the reason in successors (docs/DESIGN-PASS.md, "A struct for words").
ghost use Rattle.std.specs.Prelude.{◌≡◌, ◌≤◌, length};
ghost use Rattle.runs.specs.MainProcess.{Padded, Finished, totals};
ghost use Rattle.runs.specs.Starts.{CourseMaskFree, CourseMasked, CourseMain};

use super::admitted::Course;
use super::held::Held;
use super::{Tally, run_moves};
use cells::{load, save};
use derivation::Scratch;
use expressions::store;
use readers::COUNTS;
use sharing::beginning::part_word;
use sharing::expanding::expand;
use sharing::masks::shareable;
use steps::storing::start_store;
use unfold::unfold_main;
use words::front;
use writing::put_words;

// The last term's size in words, and how many numbers took a visible move, took an internal one, or were refused.
// Stays beside Tally, whose size is a place in an array (usize): here it has 32 bits, as a size has in every other answer. One struct generic in the
// size would be written with that type at every place, and would be turned by the same function.
#[derive(Clone, Copy, Default)]
pub struct Totals {
    pub size: u32,
    pub visible: u64,
    pub internal: u64,
    pub refused: u64,
}

impl From<Tally> for Totals {
    ghost from_gives = { λ t r. r ≡ totals t };

    fn from(tally: Tally) -> Totals {
        Totals {
            size: (tally.size % 4294967296) as u32,
            visible: tally.visible,
            internal: tally.internal,
            refused: tally.refused,
        }
    }
}

// Zeros from one word up to another.
// Stays with two places, and not the part of the words lent: nothing is done where they are no part of the words. That a lent array keeps
// its length, here and below, is a fact of what it was and what it is then, which no field of a struct holds.
fn pad(ws: &mut [u16], from: usize, to: usize)
    ensures { (length ws.new ≡ length ws.old) × Padded ws.old from to ws.new }
{
    if to < from || ws.len() < to {
        return;
    }
    ws[from..to].fill(0);
}

// The end of a run: as many words as the tally says, zeros after them up to main's reach, and the cells of the store, written into the lent buffers;
// returns the tally as totals.
// Stays, here and in the functions after it: the term, the memory and the spare buffer are lent apart, and so are the words and the store: memory
// is fixed and there is no heap, and each is a different thing. Main is read back from the spare buffer, and of a buffer in a lent struct, as engine's `Next`
// is, a check knows no more than its length once it was lent to be read.
fn finish(
    course: &Course,
    ws: &mut [u16],
    tally: Tally,
    m: &[u16],
    term: &mut [u8],
    memory: &mut [u8],
) -> Totals
    ensures written { Finished ws.old tally.size course.now.reach m.now course.now.rules.functions.cells term.old memory.old term.new memory.new }
    ensures totals { result ≡ totals tally }
{
    let reach = course.reach;
    pad(ws, tally.size, reach);
    put_words(front(ws, reach), term);
    save(m, memory, course.rules.functions.cells);
    Totals::from(tally)
}

// From the words of main's unfolding, which has no masks, and the cells of the start: at first the term is the whole of it, and the last
// one is written out in full.
// Stays: that u has at most 65,503 words is what sharing asks; and eight parameters, for the reason at `finish`: six are lent.
fn run_mask_free(
    course: &Course,
    u: &[u16],
    d: &mut [u16],
    m: &mut [u16],
    scratch: &mut Scratch,
    term: &mut [u8],
    memory: &mut [u8],
    by_reader: &mut [u32; COUNTS],
) -> Totals
    requires { (length u.now ≤ 65503) × (length d.old ≤ 65535) }
    ensures { CourseMaskFree course.now u.now d.old m.old (length scratch.old.path.now) (length scratch.old.acts.now) (length scratch.old.mid.now) term.old memory.old by_reader.old result term.new memory.new by_reader.new }
{
    // never with room for main
    if d.len() == 0 {
        return Totals::default();
    }
    d[0] = part_word(u);
    let held = Held::Over(u);
    let r = run_moves(course, held, 1, d, m, &mut [], scratch, by_reader);
    // never None: there is room for main's reach
    let end = expand(u, front(d, r.size), scratch.mid, 0).map_or(0, |last| last.end);
    let last = Tally { size: end, ..r };
    finish(course, scratch.mid, last, m, term, memory)
}

// With masks, or with operands too deep to be shared, the term is held in its own words.
// Stays: nine parameters, for the reason at `finish`: seven are lent. The term is the first n words of ws, and no slice of them, since `finish` fills ws up to
// main's reach.
fn run_masked(
    course: &Course,
    n: usize,
    ws: &mut [u16],
    m: &mut [u16],
    scratch: &mut Scratch,
    term: &mut [u8],
    memory: &mut [u8],
    spare: &mut [u8],
    by_reader: &mut [u32; COUNTS],
) -> Totals
    requires { length ws.old ≤ 65535 }
    ensures { (length spare.new ≡ length spare.old) × CourseMasked course.now n ws.old m.old scratch.old.path.now term.old memory.old spare.old by_reader.old result term.new memory.new spare.new by_reader.new }
{
    let held = Held::InFull;
    let r = run_moves(course, held, n, ws, m, spare, scratch, by_reader);
    finish(course, ws, r, m, term, memory)
}

// Main's unfolding and the cells of the start, then all numbers, in lent words with room for main's reach; every other array is as long.
// Stays: eight parameters, for the reason at `finish`: seven are lent.
fn run_words(
    course: &Course,
    ws: &mut [u16],
    d: &mut [u16],
    scratch: &mut Scratch,
    term: &mut [u8],
    memory: &mut [u8],
    spare: &mut [u8],
    by_reader: &mut [u32; COUNTS],
) -> Totals
    requires { (length ws.old ≤ 65503) × (length d.old ≡ length ws.old) × (length scratch.old.path.now ≡ length ws.old) × (length scratch.old.acts.now ≡ length ws.old) × (length scratch.old.mid.now ≡ length ws.old) }
    ensures { CourseMain course.now (length ws.old) term.old memory.old spare.old by_reader.old result term.new memory.new spare.new by_reader.new }
{
    let rules = &course.rules;
    let tables = rules.tables;
    let n = unfold_main(rules.functions.words, tables, spare);
    load(spare, ws, 0, n);
    let mut m = [0u16; store::WORDS];
    start_store(&rules.functions, &mut m);
    if shareable(front(ws, n)) {
        return run_mask_free(
            course,
            front(ws, n),
            d,
            &mut m,
            scratch,
            term,
            memory,
            by_reader,
        );
    }
    run_masked(
        course, n, ws, &mut m, scratch, term, memory, spare, by_reader,
    )
}

// The same in arrays of N words, for a reach of at most N. It is a function apart from its caller, so that a short reach does not pay
// for a frame with long arrays.
// Stays: one function for all sizes of the local arrays, since memory is fixed and there is no heap.
#[inline(never)]
fn run_sized<const N: usize>(
    course: &Course,
    term: &mut [u8],
    memory: &mut [u8],
    spare: &mut [u8],
    by_reader: &mut [u32; COUNTS],
) -> Totals
    requires { N ≤ 65503 }
    ensures { CourseMain course.now N term.old memory.old spare.old by_reader.old result term.new memory.new spare.new by_reader.new }
{
    let mut ws = [0u16; N];
    let mut d = [0u16; N];
    let mut path = [0u16; N];
    let mut acts = [0u32; N];
    let mut mid = [0u16; N];
    let mut scratch = Scratch {
        path: &mut path,
        acts: &mut acts,
        mid: &mut mid,
    };
    let r = run_words(
        course,
        &mut ws,
        &mut d,
        &mut scratch,
        term,
        memory,
        spare,
        by_reader,
    );
    r
}

// From the start by all numbers, into buffers with room for main's reach and the cells.
pub fn run_main(
    course: &Course,
    term: &mut [u8],
    memory: &mut [u8],
    spare: &mut [u8],
    by_reader: &mut [u32; COUNTS],
) -> Totals
    ensures { CourseMain course.now 8192 term.old memory.old spare.old by_reader.old result term.new memory.new spare.new by_reader.new }
{
    if course.reach <= 256 {
        return run_sized::<256>(course, term, memory, spare, by_reader);
    }
    if course.reach <= 1024 {
        return run_sized::<1024>(course, term, memory, spare, by_reader);
    }
    run_sized::<8192>(course, term, memory, spare, by_reader)
}
