// The cells of one function computed anew (document 01, "Memory and the history machine"). An event names few entities, and the cells of all
// others keep their values: rules say so by an expression before f(x0), or by one that asks first whether x0 is the entity named. Such
// cells are copied and not computed one by one; any other expression is evaluated for every element.
// Stays: that words are at most 65,535 is a clause of each function here, for the reason in successors (docs/DESIGN-PASS.md, "A struct for words").
ghost use Rattle.std.specs.Prelude.{◌≡◌, true, ℕ, ◌+◌, ◌≤◌, ◌<◌, length};
ghost use Rattle.expressions.specs.Stores.{stored, before_place, begin_place, now_place};
ghost use Rattle.cells.specs.Frames.{kept_value, AsksOne, Tells, NewCells};
ghost use Rattle.cells.specs.Turns.{FunctionFilled};

use super::copy_cells;
use expressions::{eval_data, store, word};
use words::last;

// The codes as words of the stream.
// Stays beside those of code_numbers: they are matched in slices of words below, and a pattern has no cast.
const VARIABLE: u16 = code_numbers::VARIABLE as u16;

const IF: u16 = code_numbers::IF as u16;

const NOW: u16 = code_numbers::NOW as u16;

const BEFORE: u16 = code_numbers::BEFORE as u16;

const EQUAL: u16 = code_numbers::EQUAL as u16;

// Whether before f(x0) is at the front: the element keeps its value.
fn keeps(s: &[u16], f: usize) -> bool
    ensures { Tells result s.now (λ d. d ≡ kept_value f) }
{
    match s {
        [BEFORE, g, VARIABLE, 0, ..] => *g as usize == f,
        _ => false,
    }
}

// Whether it is asked first if x0 is the entity that an argument of the event names, or a function's value of such an argument: at most one
// element is.
fn names_one(s: &[u16]) -> bool
    ensures { Tells result s.now AsksOne × (result ≡ true → 8 ≤ length s.now) }
{
    match s {
        [IF, EQUAL, VARIABLE, 0, VARIABLE, i, _, _, ..] => *i != 0,
        [IF, EQUAL, VARIABLE, 0, NOW | BEFORE, _, VARIABLE, i, ..] => *i != 0,
        _ => false,
    }
}

// Every cell by the expression, element by element.
// Stays, here and in fill_named: the place and k beside the whole store, since the expression reads all of the store while cells of it are written.
// Stays: k is a usize with its bound as a clause, as all places and numbers of cells are.
// Stays: that the store keeps its length is a fact of what it was and what it is then, which no field of a struct holds.
fn fill_each(s: &[u16], m: &mut [u16], at: usize, k: usize)
    requires { (length s.now ≤ 65535) × (now_place ≤ at) × (at + k ≤ length m.old) × (k < 65536) }
    ensures { (length m.new ≡ length m.old) × ((f : ℕ) → NewCells f s.now at k m.old m.new) }
{
    for x in 0..k {
        m[store::PARAMETER] = x as u16;
        let v = eval_data(s, m).value;
        m[at + x] = v as u16;
    }
}

// The one element named by what it is compared with, if the others keep their values.
#[tactic(auto, using(words::specs::Laws::Checking::last_len))]
fn fill_named(s: &[u16], m: &mut [u16], f: usize, from: usize, at: usize, k: usize)
    requires expression { (8 ≤ length s.now) × (length s.now ≤ 65535) × Tells true s.now AsksOne }
    requires cells { (now_place ≤ at) × (at + k ≤ length m.old) × (from + k ≤ length m.old) × (k < 65536) }
    requires old_cells { from ≡ before_place m.old + stored m.old (begin_place f) }
    ensures { (length m.new ≡ length m.old) × NewCells f s.now at k m.old m.new }
{
    let named = eval_data(&s[4..], m);
    m[store::PARAMETER] = named.value as u16;
    let t = last(s, named.left);
    let valued = eval_data(t, m);
    if keeps(last(t, valued.left), f) {
        copy_cells(m, from, at, k);
        if named.value < k {
            m[at + named.value] = valued.value as u16;
        }
        return;
    }
    fill_each(s, m, at, k);
}

// The cells of function f, by the expression where `left` words of the stream are left.
// Stays with the stream and a number: the directory says by such a number where an expression begins. It asks of both what `Functions` says of them, since it
// is public, and asks for no more.
#[tactic(auto, using(words::specs::Laws::Checking::last_len))]
pub fn fill_function(t: &[u16], m: &mut [u16], f: usize, left: usize)
    requires { (length t.now ≤ 65535) × (f < 16) }
    ensures { (length m.new ≡ length m.old) × FunctionFilled t.now f left m.old m.new }
{
    let s = last(t, left);
    let row = store::ROWS + store::ROW_WORDS * f;
    let k = word(m, row);
    let o = word(m, row + 1);
    let at = store::CELLS + o;
    // never in a store that has room for all cells
    if m.len() < at + k {
        return;
    }
    let from = word(m, store::OLD_CELLS) + o;
    // never in a store with room for old cells too
    if m.len() < from + k {
        fill_each(s, m, at, k);
        return;
    }
    if keeps(s, f) {
        copy_cells(m, from, at, k);
        return;
    }
    if names_one(s) {
        fill_named(s, m, f, from, at, k);
        return;
    }
    fill_each(s, m, at, k);
}
