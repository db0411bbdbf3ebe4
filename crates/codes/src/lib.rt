// The one table of codes (document 01, "Codes stand before their operands"; document 02, K2 and K6): which codes may be where data, a condition
// or a term is due, how many words and how many operands follow a code, and so where an expression or a term ends.
// What an edition and the functions' parameter counts change is one number, `shape`: bit f says that function f has two parameters, bit 16 that a
// constant has two words. Edition 1's is 0.
// Stays: that words are at most 65,535 is a clause of each function here, for the reason in successors (docs/DESIGN-PASS.md, "A struct for words").
// Stays one number: a struct of these 16 bits and a flag would be taken apart by the same shifts (`second_parameter`, `words_after`), and the definitions
// that contracts go by (specs/Shapes.antt) are of this number.
#![tactic(auto)]

ghost use Rattle.std.specs.Prelude.{◌≡◌, ℕ, ◌+◌, ◌*◌, ◌-◌, ◌≤◌, ◌<◌, List, [], ◌∷◌, eqb, length, drop, get_or, IfOk, MatchOption};
ghost use Rattle.eb3.specs.Scopes.{Scope};
ghost use Rattle.eb3.specs.Sizes.{breadth};
ghost use Rattle.eb3.specs.Terms.{Term};
ghost use Rattle.codes.specs.Sorts.{refusal_of, refused_as, code_due};
ghost use Rattle.codes.specs.Table.{operands_after, moving_code};
ghost use Rattle.codes.specs.Shapes.{width_of, two_parameters, arity_of, more_words, argument_count, more_operands, operand_count};
ghost use Rattle.codes.specs.Rows.{Piece, of_term, RowAt};

use code_numbers::{
    ACTION, BEFORE, CALL, CONSTANT, DONE, EQUAL, GUARD, INTERNAL, NOW, TRUE, UNDEFINED,
};
use refusals::Refusal;

// What the words before a place leave to come there. A rule term is a process's; a running term has no variables, quantifiers or calls, but may be done.
#[derive(Clone, Copy)]
pub enum Due {
    Data,
    Condition,
    RuleTerm,
    RunningTerm,
}

// The refusal of a code where something is due; none where it may be there.
#[tactic(auto, unfolding(crate::specs::Sorts::refusal_of, crate::specs::Sorts::may_be, refusals::specs::Numbers::refusal))]
pub fn refusal(w: u16, due: Due) -> Option<Refusal>
    ensures { result ≡ refused_as (refusal_of due w) }
{
    match (due, w as usize) {
        (Due::Data, UNDEFINED..=BEFORE) => None,
        (Due::Condition, EQUAL..=TRUE) => None,
        (Due::RuleTerm, INTERNAL..=CALL) => None,
        (Due::RunningTerm, INTERNAL..=GUARD) => None,
        (Due::RunningTerm, DONE) => None,
        _ => Some(Refusal::Form),
    }
}

// The code at a place where something is due, or its refusal; form where there is no word. Each check of a rule stream, a guard or a given term asks this
// first at each place, and says itself only what follows a code that may be there.
pub fn code_due(s: &[u16], at: usize, due: Due) -> Result<usize, Refusal>
    ensures coded { result ≡ code_due due s.now at }
    ensures there { IfOk result (λ w. at < length s.now) }
{
    let Some(w) = s.get(at) else {
        return Err(Refusal::Form);
    };
    match refusal(*w, due) {
        None => Ok(usize::from(*w)),
        Some(refusal) => Err(refusal),
    }
}

// ── what a shape says ──

// Constants of one word, functions of one parameter.
pub const EDITION_1: usize = 0;

// The words of a constant.
// Stays, here and below: these numbers are usize with their bounds as facts, since each is added to a place or to a number of words next.
pub fn width(shape: usize) -> usize
    ensures { (result ≡ width_of shape) × (result ≤ 2) }
{
    1 + shape / 65536 % 2
}

// 1 where function f has two parameters, else 0.
fn second_parameter(shape: usize, f: usize) -> usize
    ensures { (result ≡ two_parameters shape f) × (result ≤ 1) }
{
    (shape >> (f % 16)) % 2
}

pub fn arity(shape: usize, f: usize) -> usize
    ensures { (result ≡ arity_of shape f) × (result ≤ 2) }
{
    1 + second_parameter(shape, f)
}

// ── what follows a code ──

// What the table says of a code: how many words come between it and its operands, how many operands it has, and whether a term that begins with it has a
// move whatever its operands are.
#[derive(Clone, Copy)]
struct Code {
    words: u8,
    operands: u8,
    moves: bool,
}

// The table, a row for each code. (A match by cases takes up to 1.20 times the instructions, a jump that no machine foresees; bits of one number, read by
// shifts, 1.00 to 1.08.)
#[rattlefmt::skip]
const CODES: [Code; 31] = [
    Code { words: 0, operands: 0, moves: false }, // 0 undefined
    Code { words: 1, operands: 0, moves: false }, // 1 constant: its value
    Code { words: 1, operands: 0, moves: false }, // 2 variable: its number
    Code { words: 0, operands: 2, moves: false }, // 3 add
    Code { words: 0, operands: 2, moves: false }, // 4 subtract
    Code { words: 0, operands: 3, moves: false }, // 5 if
    Code { words: 1, operands: 1, moves: false }, // 6 now: the function's number
    Code { words: 1, operands: 1, moves: false }, // 7 before: the function's number
    Code { words: 0, operands: 2, moves: false }, // 8 equal
    Code { words: 0, operands: 2, moves: false }, // 9 less
    Code { words: 0, operands: 2, moves: false }, // 10 and
    Code { words: 0, operands: 2, moves: false }, // 11 or
    Code { words: 0, operands: 1, moves: false }, // 12 not
    Code { words: 0, operands: 0, moves: false }, // 13 true
    Code { words: 0, operands: 0, moves: false }, // 14
    Code { words: 0, operands: 0, moves: false }, // 15
    Code { words: 0, operands: 0, moves: false }, // 16
    Code { words: 0, operands: 0, moves: false }, // 17
    Code { words: 0, operands: 0, moves: false }, // 18
    Code { words: 0, operands: 0, moves: false }, // 19
    Code { words: 0, operands: 0, moves: true }, // 20 internal
    Code { words: 1, operands: 0, moves: true }, // 21 action: the label
    Code { words: 0, operands: 2, moves: false }, // 22 sequence
    Code { words: 0, operands: 2, moves: false }, // 23 choice
    Code { words: 0, operands: 1, moves: true }, // 24 star
    Code { words: 4, operands: 2, moves: true }, // 25 parallel: the mask
    Code { words: 0, operands: 2, moves: false }, // 26 guard
    Code { words: 0, operands: 0, moves: false }, // 27
    Code { words: 0, operands: 0, moves: false }, // 28
    Code { words: 0, operands: 0, moves: false }, // 29
    Code { words: 0, operands: 0, moves: false }, // 30 done
];

// The words between a code and its operands. A constant's second word is bit 16 of the shape, moved to the constant's code.
// Stays, here and in the other three functions that ask it: that w is a code, at most 30, is a clause. What is read is a word of the stream, of which code_at
// makes a number; an enum of the codes would be turned into that number again for each place in the table.
pub fn words_after(w: usize, shape: usize) -> usize
    requires { w ≤ 30 }
    ensures { (result ≡ more_words shape w) × (result < 7) }
{
    CODES[w].words as usize + ((2 * (shape / 65536 % 2)) >> w) % 2
}

// The word at a place, or 0 where there is none.
// Stays: std's chain is the generic function; this names it, so that three uses are short and its contract says get_or once.
// Stays: a usize with its bound as a fact, since it is compared with codes, or is the number of a function.
fn word(t: &[u16], i: usize) -> usize
    ensures { (result ≡ get_or t.now i 0) × (result < 65536) }
{
    usize::from(t.get(i).copied().unwrap_or(0))
}

// How many arguments follow the label at a place: they are constants, and no term begins with a constant's code.
// Stays, here and below: s with a place, and no part of s: who skips counts places in s, and would take a part of it at each word.
fn arguments(s: &[u16], at: usize, shape: usize) -> usize
    requires { at ≤ 65536 }
    ensures { (result ≡ argument_count shape (drop at s.now)) × (result ≤ 2) }
{
    if word(s, at + 1) != CONSTANT {
        0
    } else if word(s, at + 2 + width(shape)) != CONSTANT {
        1
    } else {
        2
    }
}

// The second argument of now and before, where the function at a place has two parameters.
fn second_arguments(w: usize, s: &[u16], at: usize, shape: usize) -> usize
    ensures { ((w ≡ 21 → ⊥) → result ≡ more_operands shape w (drop at s.now)) × (result ≤ 1) }
{
    match w {
        NOW | BEFORE => second_parameter(shape, word(s, at)),
        _ => 0,
    }
}

// The operands that the table does not say.
fn more_operands(w: usize, t: &[u16], shape: usize) -> usize
    ensures { (result ≡ more_operands shape w t.now) × (result ≤ 2) }
{
    if w == ACTION {
        arguments(t, 0, shape)
    } else {
        second_arguments(w, t, 0, shape)
    }
}

// The operands that the table says.
pub fn operands_after(w: usize) -> usize
    requires { w ≤ 30 }
    ensures { (result ≡ operands_after w) × (result ≤ 3) }
{
    CODES[w].operands as usize
}

// How many operands a code has, t being the words after it.
pub fn operands(w: usize, t: &[u16], shape: usize) -> usize
    requires { w ≤ 30 }
    ensures { (result ≡ operand_count shape w t.now) × (result ≤ 5) }
{
    operands_after(w) + more_operands(w, t, shape)
}

// ── skipping ──

// The code at a place; None where there is no word, or one that is no code.
pub fn code_at(s: &[u16], at: usize) -> Option<usize>
    ensures { MatchOption result (at < length s.now → 30 < get_or s.now at 0) (λ w. (w ≡ get_or s.now at 0) × (at < length s.now) × (w ≤ 30)) }
{
    s.get(at).map(|w| usize::from(*w)).filter(|w| *w <= DONE)
}

// The words left after n expressions and terms in a row, n being how many they are. One loop over codes: `due` counts those that are still to come, of
// whatever sort.
// Stays `while`, since no index is counted: a code says how far after it the next one is.
// Stays a case of its own for an action, whose arguments are skipped with it: measured, with each of them due a Run takes up to 1.15 times the instructions
// (attended cabinet, 16 keys), a Present up to 1.10.
// Stays in three cases by the number of words after the code: so the next place is foreseen and need not wait for the table. With one case the conditions of a
// run take up to twice the time, measured.
// Not inlined: put into its callers it makes the library 2,980 bytes longer, and a run of refused numbers of the library takes 1.16 of the instructions for 1.12.
// Stays 0 where a word is no code: no caller skips anything but whole expressions and terms, and an Option would have to be opened at every skip.
// Stays: n counts expressions, and does not say how many of the words count. That no more words are left than there were, here and in the functions of
// listing and successors that go by this one, is a fact of both.
#[inline(never)]
pub fn skip_row(s: &[u16], n: usize, shape: usize) -> usize
    requires { (length s.now ≤ 65535) × (n ≤ 65535) }
    ensures { (result ≤ length s.now) × ((P : Scope) (xs : List Piece) (rest : List ℕ) → RowAt shape s.now P xs rest → n ≡ length xs → result ≡ length rest) }
{
    let mut at: usize = 0;
    let mut due = n;
    while 0 < due {
        let Some(w) = code_at(s, at) else {
            return 0;
        };
        if w == ACTION {
            at = at + 2 + arguments(s, at + 1, shape) * (1 + width(shape));
            due -= 1;
            continue;
        }
        due = due - 1 + (operands_after(w) + second_arguments(w, s, at + 1, shape));
        let k = words_after(w, shape);
        if k == 0 {
            at = at + 1;
            continue;
        }
        if k == 1 {
            at = at + 2;
            continue;
        }
        at = at + 1 + k;
    }
    s.len().saturating_sub(at)
}

// The words left after one expression or term.
pub fn skip(s: &[u16], shape: usize) -> usize
    requires { length s.now ≤ 65535 }
    ensures { (result ≤ length s.now) × ((P : Scope) (x : Piece) (rest : List ℕ) → RowAt shape s.now P (x ∷ []) rest → result ≡ length rest) }
{
    skip_row(s, 1, shape)
}

// ── terms that can never move ──

// Whether a term that begins with a code has a move whatever its operands are.
fn moving(w: usize) -> bool
    requires { w ≤ 30 }
    ensures { result ≡ moving_code w }
{
    CODES[w].moves
}

// Whether a term can never move: no such code is in it. Where one is, the loop ends at the first.
// Stays `while`, and in three cases by the words after the code, as in skip_row.
// Stays beside skip_row: the loops share what follows a code (operands_after, second_arguments and words_after), and one function of both would have to
// promise what is left and what was seen at once.
pub fn idle(s: &[u16], shape: usize) -> bool
    requires { length s.now ≤ 65535 }
    ensures { (P : Scope) (E : Term) (rest : List ℕ) → RowAt shape s.now P (of_term E ∷ []) rest → result ≡ eqb (breadth E) 0 }
{
    let mut at: usize = 0;
    let mut due: usize = 1;
    while 0 < due {
        let Some(w) = code_at(s, at) else {
            return false;
        };
        if moving(w) {
            return false;
        }
        due = due - 1 + (operands_after(w) + second_arguments(w, s, at + 1, shape));
        let k = words_after(w, shape);
        if k == 0 {
            at = at + 1;
            continue;
        }
        if k == 1 {
            at = at + 2;
            continue;
        }
        at = at + 1 + k;
    }
    true
}
