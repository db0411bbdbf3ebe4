// Actions as numbers: read off a running term, and tested against a mask (document 01, "Moves, in order").
// Stays one number: a list of moves is an array of 32 bits a move, at most 131,072 of them, and equal actions are equal numbers; a struct of a label
// and up to two arguments would take more room in each such array, and a comparison of its fields at each search. The internal action is 0, and is tested as 0
// here and in runs, steps and engine: it is 0 in the definitions too (specs/Codes.antt), and a name for it would be taken for a label's or a code's.
#![tactic(auto)]

ghost use Rattle.std.specs.Prelude.{◌≡◌, Bool, List, [], ◌∷◌, ◌++◌, ℕ, ◌+◌, ◌*◌, ◌-◌, ◌≤◌, ◌<◌, length, get_or};
ghost use Rattle.eb3.specs.Terms.{VisibleAction, visible};
ghost use Rattle.actions.specs.Codes.{arguments_code, action_code, Small, ActionAt};
ghost use Rattle.actions.specs.Sets.{in_set, mask_word, mask_set};
ghost use Rattle.std.specs.Int.Bits.{bit_or};

use code_numbers::CONSTANT;

// The word at a place, or 0 where there is none.
// Stays: std's chain is the generic function; this names it, so that four uses are short and its contract says get_or once.
fn word(t: &[u16], i: usize) -> u16
    ensures { result ≡ get_or t.now i 0 }
{
    t.get(i).copied().unwrap_or(0)
}

// How many arguments follow a label: none, one or two. Each is the code of a constant and then its word.
// Stays beside the function of this name in codes: each call of that would give the place 0 and the shape 0, and a law would have to say that the constants
// which it counts are the arguments of an action (`ActionAt`), in place of the two tests here.
// Stays a usize with its bound as a fact, since it is multiplied and added next.
fn arguments(t: &[u16]) -> usize
    ensures { (result ≤ 2) × ((a : VisibleAction) (rest : List ℕ) → ActionAt t.now a rest → result ≡ length a.arguments) }
{
    if t.len() < 3 || t[1] != CONSTANT as u16 {
        0
    } else if t.len() < 5 || t[3] != CONSTANT as u16 {
        1
    } else {
        2
    }
}

// How many words are left after the label and the arguments.
// Stays a test: with saturating_sub each level of successors::begin, where this is inlined, took 16 bytes more stack.
pub fn behind_action(t: &[u16]) -> usize
    ensures { (result ≤ length t.now) × ((a : VisibleAction) (rest : List ℕ) → ActionAt t.now a rest → result ≡ length rest) }
{
    let n = 1 + 2 * arguments(t);
    if n <= t.len() { t.len() - n } else { 0 }
}

// The number of the action.
pub fn code_at(t: &[u16]) -> u32
    ensures { (a : VisibleAction) (rest : List ℕ) → ActionAt t.now a rest → result ≡ action_code (visible a) }
{
    let n = arguments(t);
    let label = u32::from(word(t, 0));
    if n == 0 {
        return 1 + label;
    }
    let x = u32::from(word(t, 2));
    if n == 1 {
        return 1 + label + 64 * (1 + x);
    }
    let y = u32::from(word(t, 4));
    1 + label + 64 * (1 + x + 65 * (1 + y))
}

// ── sets of labels ──

// A word of a mask, or 0 where there is none.
// Stays a u64 with its bound as a fact, since it is a part of a number of 64 bits next.
fn mask_word(d: &[u16], i: usize) -> u64
    ensures { (result ≡ mask_word d.now i) × (result < 65536) }
{
    u64::from(word(d, i))
}

// The mask at the front as a set.
// Stays: no function of std makes one number of four words.
#[tactic(auto, using(crate::proofs::Cases::cases))]
pub fn mask_set(d: &[u16]) -> u64
    ensures { result ≡ mask_set d.now }
{
    ((mask_word(d, 3) * 65536 + mask_word(d, 2)) * 65536 + mask_word(d, 1)) * 65536
        + mask_word(d, 0)
}

// Whether a number is that of a visible action whose label is in the set: of any number, so that a loop over numbers needs to know nothing
// of actions.
#[tactic(auto, using(crate::proofs::Cases::cases))]
pub fn in_set(x: u64, code: u32) -> bool
    ensures { result ≡ in_set x code }
{
    code != 0 && (x >> ((code - 1) % 64)) % 2 == 1
}

pub fn join(x: u64, y: u64) -> u64
    ensures { result ≡ bit_or x y }
{
    x | y
}

// ── a number taken apart ──

#[tactic(auto, using(crate::proofs::Cases::cases))]
pub fn label_of(code: u32) -> u32
    ensures { (a : VisibleAction) → Small (visible a) → code ≡ action_code (visible a) → result ≡ a.label }
{
    code.saturating_sub(1) % 64
}

// The arguments' number.
#[tactic(auto, using(crate::proofs::Cases::cases))]
fn arguments_of(code: u32) -> u32
    ensures { (a : VisibleAction) → Small (visible a) → code ≡ action_code (visible a) → result ≡ arguments_code a.arguments }
{
    code.saturating_sub(1) / 64
}

pub fn argument_count(code: u32) -> u32
    ensures { (a : VisibleAction) → Small (visible a) → code ≡ action_code (visible a) → result ≡ length a.arguments }
{
    let q = arguments_of(code);
    if q == 0 {
        0
    } else if q < 65 {
        1
    } else {
        2
    }
}

// The argument at a place, or 0 where there is none. An argument counts one more than it is; 0 says that there is none.
// Stays: the places 0 and 1 are those of arguments, no codes.
#[tactic(auto, using(crate::proofs::Cases::cases))]
pub fn argument_at(code: u32, i: u32) -> u32
    ensures { (a : VisibleAction) → Small (visible a) → code ≡ action_code (visible a) → result ≡ get_or a.arguments i 0 }
{
    let q = arguments_of(code);
    match i {
        0 => (q % 65).saturating_sub(1),
        1 => (q / 65).saturating_sub(1),
        _ => 0,
    }
}
