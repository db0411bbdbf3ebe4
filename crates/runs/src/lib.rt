// The memory machine run by a list of numbers, its term held in words in one of two ways and its cells in a store (document 01, "Memory and the history
// machine"; "Operations": Run: numbers not offered are counted and passed over), each counted at its reader, too (document 02, K1). Nothing is
// admitted or checked again between two numbers, so that each costs what its step costs. The run of the main process from the start is in main_process.
// Stays: that words are at most 65,535 is a clause of each function here, for the reason in successors (docs/DESIGN-PASS.md, "A struct for words").
#![tactic(auto)]

ghost use Rattle.std.specs.Prelude.{◌≡◌, ◌+◌, ◌≤◌, ◌<◌, length};
ghost use Rattle.derivation.specs.Arrays.{SameArrays};
ghost use Rattle.runs.specs.Held.{Short, StepsOnce, Runs};
ghost use Rattle.runs.specs.Running.{outcome_of, counted};

pub mod admitted;
pub mod held;
pub mod main_process;

use admitted::Course;
use cells::Functions;
use derivation::Scratch;
use held::{Held, take};
use readers::list::place;
use readers::{COUNTS, Outcome, count_one};
use steps::renewing::renew;
use words::word_at;

/// What a number did that a move was offered for: how many words the term has after a visible or an internal move.
#[derive(Clone, Copy)]
pub enum Done {
    Visible(usize),
    Internal(usize),
}

// The size of the last term in words, and how many numbers did what.
#[derive(Clone, Copy, Default)]
pub struct Tally {
    pub size: usize,
    pub visible: u64,
    pub internal: u64,
    pub refused: u64,
}

// What a number did, as it is counted at its reader.
fn outcome(done: Option<Done>) -> Outcome
    ensures { result ≡ outcome_of done }
{
    match done {
        Some(Done::Visible(_size)) => Outcome::Visible,
        Some(Done::Internal(_size)) => Outcome::Internal,
        None => Outcome::Refused,
    }
}

// Number k of a run: move k of the term in the first n words of ws is made, and the cells are renewed.
// Stays, here and in run_moves: the words, the store, the buffer and the arrays of the run are lent apart, as in main_process (its `finish` says why); and that
// each keeps its length is a fact of what it was and what it is then, which no field of a struct holds.
fn step_once(
    functions: &Functions,
    held: Held,
    n: usize,
    k: usize,
    ws: &mut [u16],
    m: &mut [u16],
    out: &mut [u8],
    scratch: &mut Scratch,
) -> Option<Done>
    requires { Short held × (length ws.old ≤ 65535) × (k < 65536) }
    ensures words { length ws.new ≡ length ws.old }
    ensures store { length m.new ≡ length m.old }
    ensures bytes { length out.new ≡ length out.old }
    ensures arrays { SameArrays scratch.old scratch.new }
    ensures stepped { StepsOnce functions.now held.entry n k ws.old m.old out.old scratch.old ws.new m.new out.new result }
{
    let taken = take(held, n, k, ws, m, out, scratch)?;
    renew(functions, m, taken.action);
    if 0 < taken.action {
        return Some(Done::Visible(taken.size));
    }
    Some(Done::Internal(taken.size))
}

// One more of what was done, and the term's size then; None is a number that no move was offered for. A list has far fewer numbers
// than a count can hold.
fn counted(tally: Tally, done: Option<Done>) -> Tally
    requires { tally.visible + tally.internal + tally.refused < 18446744073709551615 }
    ensures { result ≡ counted tally done }
{
    match done {
        Some(Done::Visible(size)) => Tally {
            size,
            visible: tally.visible + 1,
            ..tally
        },
        Some(Done::Internal(size)) => Tally {
            size,
            internal: tally.internal + 1,
            ..tally
        },
        None => Tally {
            refused: tally.refused + 1,
            ..tally
        },
    }
}

// From the term in the first n words of ws and the cells in the store, by all numbers of the course's list, each counted at its reader in `by_reader`; bytes
// after the last whole pair of a number and its reader are ignored.
// Stays by number: the contract has the list as words (`words_in`), and groups of four bytes would have to be made into those.
// Stays: the term is the first n words of ws: it grows and shrinks within one array of a fixed size, since there is no heap. A struct
// of both would be lent, and each contract would have to say too that its array stays the same (`ghost_name`), as `SameArrays` does of a `Scratch`.
// Stays: eight parameters, here and in step_once, of which five are lent to be written, each a different thing.
pub fn run_moves(
    course: &Course,
    held: Held,
    n: usize,
    ws: &mut [u16],
    m: &mut [u16],
    out: &mut [u8],
    scratch: &mut Scratch,
    by_reader: &mut [u32; COUNTS],
) -> Tally
    requires { Short held × (length ws.old ≤ 65535) }
    ensures words { length ws.new ≡ length ws.old }
    ensures store { length m.new ≡ length m.old }
    ensures bytes { length out.new ≡ length out.old }
    ensures arrays { SameArrays scratch.old scratch.new }
    ensures run { Runs course.now held.entry n ws.old m.old out.old scratch.old by_reader.old ws.new m.new out.new by_reader.new result }
{
    let mut tally = Tally {
        size: n,
        ..Tally::default()
    };
    let functions = &course.rules.functions;
    let list = course.list;
    for i in 0..list.len() / 4 {
        let k = usize::from(word_at(list, 2 * i));
        let done = step_once(functions, held, tally.size, k, ws, m, out, scratch);
        let index = place(word_at(list, 2 * i + 1));
        count_one(by_reader, index, outcome(done));
        tally = counted(tally, done);
    }
    tally
}
