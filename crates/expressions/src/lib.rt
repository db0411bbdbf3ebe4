// The two evaluators, over data and over conditions, calling each other (document 01, "Values and conditions": a data
// expression may hold a condition, and a condition holds data expressions). They serve both functions' expressions and
// guards; each answers its value and the words left after the expression, so that nothing is scanned twice.
// Stays: that words are at most 65,535 is a clause of each function here, for the reason in successors (docs/DESIGN-PASS.md, "A struct for words").
#![tactic(auto)]

ghost use Rattle.std.specs.Prelude.{◌≡◌, Bool, [], ◌∷◌, ◌≤◌, ◌<◌, length, drop, get_or};
ghost use Rattle.eb3.specs.Values.{decode, encode, add, subtract, equal, less};
ghost use Rattle.expressions.specs.Stores.{largest_number, stored, reading_in, before_place};
ghost use Rattle.expressions.specs.Answering.{truth, IsValued, Evaluated, Judged};
ghost use Rattle.expressions.specs.Operands.{operated, connected, Fetched, Paired, Selected, Named, Compared, Joined, Negated};

use code_numbers::{
    AND, BEFORE, CONSTANT, DIFFERENCE, EQUAL, IF, LESS, NOT, NOW, OR, SUM, VARIABLE,
};
use words::{behind, first, last};

pub mod answers;
pub mod store;
pub mod valued;

use answers::pack;
pub use answers::{truth_of, words_left};
pub use valued::Valued;

// The word of undefined.
// Stays a word: values are words of the store, and an Option of a number would be turned into one wherever a cell is read or written.
const UNDEFINED: usize = 65535;

// ── values as words ──

// Stays, in the evaluators: the words and the store are two parameters: most calls are handed other words, for which a struct of both would be made anew, in
// memory. So it is in rule_terms with the words and the `Context`, and in steps.
// Stays: values are of the type usize with their bound as a fact: each is a place or a part of a sum next, and as u16 it would be cast at every use.

// The word of undefined is above every number, so a sum with it is no number either.
fn add(a: usize, b: usize) -> usize
    requires { (a < 65536) × (b < 65536) }
    ensures { (result ≡ encode 65535 (add largest_number (decode largest_number a) (decode largest_number b))) × (result < 65536) }
{
    (a + b).min(UNDEFINED)
}

fn subtract(a: usize, b: usize) -> usize
    requires { (a < 65536) × (b < 65536) }
    ensures { (result ≡ encode 65535 (subtract (decode largest_number a) (decode largest_number b))) × (result < 65536) }
{
    if a < UNDEFINED && b <= a {
        a - b
    } else {
        UNDEFINED
    }
}

// Undefined equals undefined and no number: so do their words.
fn equal(a: usize, b: usize) -> usize
    requires { (a < 65536) × (b < 65536) }
    ensures { (result ≡ truth (equal (decode largest_number a) (decode largest_number b))) × (result < 65536) }
{
    usize::from(a == b)
}

fn less(a: usize, b: usize) -> usize
    requires { (a < 65536) × (b < 65536) }
    ensures { (result ≡ truth (less (decode largest_number a) (decode largest_number b))) × (result < 65536) }
{
    usize::from(a < b && b < UNDEFINED)
}

// What is made of two values. An enum, since the check states no theorem of a cycle of calls in which one function takes a closure.
#[derive(Clone, Copy)]
enum Operation {
    Add,
    Subtract,
    Equal,
    Less,
}

fn operate(operation: Operation, a: usize, b: usize) -> usize
    requires { (a < 65536) × (b < 65536) }
    ensures { (result ≡ operated operation (decode largest_number a) (decode largest_number b)) × (result < 65536) }
{
    match operation {
        Operation::Add => add(a, b),
        Operation::Subtract => subtract(a, b),
        Operation::Equal => equal(a, b),
        Operation::Less => less(a, b),
    }
}

// What is made of two conditions.
#[derive(Clone, Copy)]
enum Connective {
    And,
    Or,
}

fn connect(connective: Connective, a: usize, b: usize) -> usize
    requires { (a < 65536) × (b < 65536) }
    ensures { ((c d : Bool) → a ≡ truth c → b ≡ truth d → result ≡ truth (connected connective c d)) × (result < 65536) }
{
    match connective {
        Connective::And => a.min(b),
        Connective::Or => a.max(b),
    }
}

// ── the store ──

// A word of the store; past its end, the word of undefined.
// Stays: std's chain is the generic function; this names it, so that its contract says once what a store holds.
#[tactic(auto, unfolding(crate::specs::Stores::stored))]
pub fn word(m: &[u16], i: usize) -> usize
    ensures { (result ≡ stored m.now i) × (result < 65536) }
{
    usize::from(m.get(i).copied().unwrap_or(u16::MAX))
}

// The cell of function f for an argument, the cells beginning at a place.
fn cell(m: &[u16], at: usize, f: usize, x: usize) -> usize
    requires { (at < 65536) × (f < 65536) × (x < 65536) }
    ensures { (result ≡ encode 65535 (reading_in m.now at f (decode largest_number x ∷ []))) × (result < 65536) }
{
    let row = store::ROWS + store::ROW_WORDS * f;
    if x < word(m, row) {
        word(m, at + (word(m, row + 1) + x))
    } else {
        UNDEFINED
    }
}

// Where the cells that before reads begin.
fn old_cells(m: &[u16]) -> usize
    ensures { (result ≡ before_place m.now) × (result < 65536) }
{
    word(m, store::OLD_CELLS)
}

// ── data ──

// A constant, and a variable, after their code.
// Stays, here and below: that no more words are left than were given is a fact of both, so that no field of `Valued` holds it.
fn constant(t: &[u16]) -> Valued
    ensures { IsValued (get_or t.now 0 0) (length (drop 1 t.now)) result × (result.left ≤ length t.now) }
{
    Valued {
        value: first(t),
        left: behind(t).len(),
    }
}

fn variable(t: &[u16], m: &[u16]) -> Valued
    ensures { Fetched t.now m.now result × (result.left ≤ length t.now) }
{
    Valued {
        value: word(m, first(t)),
        left: behind(t).len(),
    }
}

// As eval_data, but a constant or a variable costs no call: most operands are one of these.
#[cycle(evaluators)]
fn operand(s: &[u16], m: &[u16]) -> Valued
    requires { length s.now ≤ 65535 }
    ensures { Evaluated s.now m.now result × (result.left ≤ length s.now) }
{
    let w = first(s);
    let t = behind(s);
    match w {
        CONSTANT => constant(t),
        VARIABLE => variable(t, m),
        _ => eval_data(s, m),
    }
}

// Two data, one after the other, and what an operation makes of them. Inlined, since its frame would come on top of the evaluator's at each level.
#[cycle(evaluators)]
#[inline(always)]
fn paired(operation: Operation, t: &[u16], m: &[u16]) -> Valued
    requires { length t.now < 65535 }
    ensures { Paired (operated operation) t.now m.now result × (result.left ≤ length t.now) }
{
    let x = operand(t, m);
    let y = operand(last(t, x.left), m);
    Valued {
        value: operate(operation, x.value, y.value),
        left: y.left,
    }
}

// Both data are evaluated: the words left must be known, and there is no other effect.
#[cycle(evaluators)]
fn selected(t: &[u16], m: &[u16]) -> Valued
    requires { length t.now < 65535 }
    ensures { Selected t.now m.now result × (result.left ≤ length t.now) }
{
    let c = eval_cond(t, m);
    let u = last(t, words_left(c));
    let x = operand(u, m);
    let y = operand(last(u, x.left), m);
    if truth_of(c) == 0 {
        y
    } else {
        Valued {
            value: x.value,
            left: y.left,
        }
    }
}

// A function's number, and its argument; its cells begin at a place.
#[cycle(evaluators)]
fn attribute(t: &[u16], m: &[u16], at: usize) -> Valued
    requires { (length t.now < 65535) × (at < 65536) }
    ensures { Named at t.now m.now result × (result.left ≤ length t.now) }
{
    let x = operand(behind(t), m);
    Valued {
        value: cell(m, at, first(t), x.value),
        left: x.left,
    }
}

// The value of the data expression at the beginning of the words.
#[cycle(evaluators)]
pub fn eval_data(s: &[u16], m: &[u16]) -> Valued
    requires { length s.now ≤ 65535 }
    ensures { Evaluated s.now m.now result × (result.left ≤ length s.now) }
{
    let w = first(s);
    let t = behind(s);
    match w {
        CONSTANT => constant(t),
        VARIABLE => variable(t, m),
        SUM => paired(Operation::Add, t, m),
        DIFFERENCE => paired(Operation::Subtract, t, m),
        IF => selected(t, m),
        NOW => attribute(t, m, store::CELLS),
        BEFORE => attribute(t, m, old_cells(m)),
        _ => Valued {
            value: UNDEFINED,
            left: t.len(),
        },
    }
}

// ── conditions ──

// Two data, one after the other, and how they compare: 1 or 0.
#[cycle(evaluators)]
#[inline(always)]
fn compared(operation: Operation, t: &[u16], m: &[u16]) -> usize
    requires { length t.now < 65535 }
    ensures { Compared (operated operation) t.now m.now result × (result < 4294967296) }
{
    let v = paired(operation, t, m);
    pack(v.value, v.left)
}

// Two conditions, one after the other, and what a connective makes of them: of 0 and 1, the least is `and`, and the largest `or`.
#[cycle(evaluators)]
fn joined(connective: Connective, t: &[u16], m: &[u16]) -> usize
    requires { length t.now < 65535 }
    ensures { Joined (connected connective) t.now m.now result × (result < 4294967296) }
{
    let x = eval_cond(t, m);
    let y = eval_cond(last(t, words_left(x)), m);
    pack(connect(connective, truth_of(x), truth_of(y)), words_left(y))
}

#[cycle(evaluators)]
fn negated(t: &[u16], m: &[u16]) -> usize
    requires { length t.now < 65535 }
    ensures { Negated t.now m.now result × (result < 4294967296) }
{
    let x = eval_cond(t, m);
    pack(usize::from(truth_of(x) == 0), words_left(x))
}

// Whether the condition at the beginning of the words holds: 1 or 0.
#[cycle(evaluators)]
pub fn eval_cond(s: &[u16], m: &[u16]) -> usize
    requires { length s.now ≤ 65535 }
    ensures { Judged s.now m.now result × (result < 4294967296) }
{
    let w = first(s);
    let t = behind(s);
    match w {
        EQUAL => compared(Operation::Equal, t, m),
        LESS => compared(Operation::Less, t, m),
        AND => joined(Connective::And, t, m),
        OR => joined(Connective::Or, t, m),
        NOT => negated(t, m),
        _ => pack(1, t.len()),
    }
}
