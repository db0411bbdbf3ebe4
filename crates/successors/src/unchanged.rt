// The words at the front of a whole term that stay as they are when an operand after them moves, read along the path; and the sizes that
// a path holds (document 01, "Moves, in order"; "Operations": the successor is built within a part of the lent buffer).
// Stays: that words are at most 65,535 is a clause of each function here, for the reason in successors (docs/DESIGN-PASS.md, "A struct for words").
ghost use Rattle.std.specs.Prelude.{◌≡◌, ◌≤◌, ◌<◌, IfSome, length, drop, get_or};
ghost use Rattle.successors.specs.Unchanged.{leading_words, Staying, Unchanged};

use code_numbers::{DONE, PARALLEL, SEQUENCE};
use paths::{LEFT_MOVES, RIGHT_MOVES};
use words::{after, behind, first};

// ── the left operand's size in the path, after the decision ──

// Stays a usize with its bound as a fact, and so does `leading`, since it is added to a number of words next.
pub fn size_word(path: &[u16]) -> usize
    ensures { (result ≡ get_or path.now 1 0) × (result < 65536) }
{
    first(behind(path))
}

pub fn behind_size(path: &[u16]) -> &[u16]
    ensures { result.now ≡ drop 2 path.now }
{
    after(path, 2)
}

// ── what stays ──

// How many words before a moving operand stay as they are: a sequence's code, or a parallel's code and mask, and its left operand where
// the right one moves alone. None where what is there changes.
#[tactic(auto, using(crate::proofs::Stays::stays_sequence, crate::proofs::Stays::stays_left, crate::proofs::Stays::stays_right))]
fn staying(s: &[u16], path: &[u16]) -> Option<usize>
    ensures { IfSome result (λ n. (0 < n) × Staying s.now path.now n) }
{
    match first(s) {
        SEQUENCE if first(behind(s)) != DONE => Some(1),
        PARALLEL => match first(path) {
            LEFT_MOVES => Some(5),
            RIGHT_MOVES => Some(5 + size_word(path)),
            _ => None,
        },
        _ => None,
    }
}

// How many words of the path lead to that operand.
#[tactic(auto, unfolding(crate::specs::Unchanged::leading_words))]
fn leading(s: &[u16], path: &[u16]) -> usize
    ensures { (result ≡ leading_words s.now path.now) × (result ≤ 2) }
{
    if first(s) == SEQUENCE {
        0
    } else if first(path) == LEFT_MOVES {
        1
    } else {
        2
    }
}

// How many words at the front of a term stay, and how many words of the path lead past them.
#[derive(Clone, Copy)]
pub struct Stay {
    pub words: usize,
    pub path: usize,
}

// After these words the term changes. Most of a large term is parallels, and what comes before the operand that moves need not be gone
// through again when it is written.
// Stays `while let`: how far each turn goes is read from the term, so there is no range to go through.
pub fn unchanged(s: &[u16], path: &[u16]) -> Stay
    requires { length s.now ≤ 65535 }
    ensures { Unchanged s.now path.now result.words result.path }
{
    let mut at = 0;
    let mut used = 0;
    while let Some(n) = staying(&s[at..], &path[used..]) {
        let next = used + leading(&s[at..], &path[used..]);
        if s.len() < at + n || path.len() < next {
            break;
        }
        at += n;
        used = next;
    }
    Stay {
        words: at,
        path: used,
    }
}
