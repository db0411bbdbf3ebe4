// The path of move k of a part of the unfolding (document 01, "Moves, in order"). Where the part ends is not needed, so that the right operand of a sequence,
// or a term under a guard that does not hold, is not passed over; only a left operand's end is looked for, by the walk of `derivation`.
// Stays: that words are at most 65,535 is a clause of each function here, for the reason in successors (docs/DESIGN-PASS.md, "A struct for words").
ghost use Rattle.std.specs.Prelude.{◌≡◌, ◌+◌, ◌-◌, ◌≤◌, ◌<◌, [], ◌∷◌, length};
ghost use Rattle.derivation.specs.declared.arrays.Derivation.TheVariants.{At, Behind};
ghost use Rattle.derivation.specs.Lending.{Kept, Over, answered};
ghost use Rattle.sharing.specs.Seeking.{Sought, TwoSought};

use code_numbers::{ACTION, CHOICE, DONE, GUARD, INTERNAL, PARALLEL, SEQUENCE, STAR};
use derivation::{Arrays, Walked, size_before};
use expressions::{eval_cond, truth_of, words_left};
use listing::{behind_mask, both_done};
use paths::{BOTH_DONE, CHOOSE_LEFT, END, LEFT_MOVES, ROUND};
use words::{behind, first, last};

// The answers here are those of derivation, except that the number of words left after a term without move k is not needed.
// Stays beside the walk of `derivation`, which has the same codes: it must answer where the term ends, by skipping what did not move, and here that is
// saved at every level. One function of both would be handed a flag for it; with a const parameter there is no proof, since a call of the walk would be
// one of the same cycle at another instance, which the check does not cover.

// One move, whose path is empty: it begins at the end.
// Stays beside derivation's `single`, which writes too how many words are left after the term: here that is not known, and nothing reads it.
fn only(arrays: &mut Arrays) -> Walked
    ensures kept { Kept arrays.old arrays.new }
    ensures path { arrays.new.path.now ≡ arrays.old.path.now }
    ensures one { (arrays.old.k ≡ 0 → answered arrays.new result ≡ At (length arrays.old.path.now)) × (1 ≤ arrays.old.k → answered arrays.new result ≡ Behind (arrays.old.k - 1) arrays.old.left) }
{
    if arrays.k == 0 {
        arrays.at = arrays.path.len();
        return Walked::Found;
    }
    arrays.k = arrays.k - 1;
    Walked::Passed
}

// Writes the path at the end of the lent array; acts is room for the walk over left operands.
// Stays, here and below: t is a parameter, with its bound as a clause: every call is handed other words.
// Stays: that the arrays stay the same (`Kept`) is a fact of what they were and what they are then, which no field of a struct holds.
#[cycle(seeking)]
pub fn seek(s: &[u16], arrays: &mut Arrays) -> Walked
    requires { length s.now ≤ 65535 }
    ensures kept { Kept arrays.old arrays.new }
    ensures sought { Over (Sought s.now) arrays.old.k arrays.old arrays.new (answered arrays.new result) }
{
    let w = first(s);
    let t = behind(s);
    match w {
        INTERNAL => only(arrays),
        ACTION => only(arrays),
        SEQUENCE => seek_sequence(t, arrays),
        CHOICE => seek_two(t, CHOOSE_LEFT as u16, arrays),
        STAR => seek_star(t, arrays),
        PARALLEL => seek_parallel(t, arrays),
        GUARD => seek_guard(t, arrays),
        _ => Walked::Passed,
    }
}

// The left term's path, or the right's where the left is done.
#[cycle(seeking)]
fn seek_sequence(t: &[u16], arrays: &mut Arrays) -> Walked
    requires { length t.now ≤ 65535 }
    ensures kept { Kept arrays.old arrays.new }
    ensures sought { Over (Sought (22 ∷ t.now)) arrays.old.k arrays.old arrays.new (answered arrays.new result) }
{
    if first(t) == DONE {
        return seek(behind(t), arrays);
    }
    seek(t, arrays)
}

// The path in the first of two terms, or in the second for what the first's moves leave of k.
// Stays: c is the word that is written, as in derivation's derive_two.
// Inlined, since its frame would come on top of seek's at each level.
#[cycle(seeking)]
#[inline(always)]
fn seek_two(t: &[u16], c: u16, arrays: &mut Arrays) -> Walked
    requires { (length t.now ≤ 65535) × (c ≤ 1) }
    ensures kept { Kept arrays.old arrays.new }
    ensures sought { Over (TwoSought c t.now) arrays.old.k arrays.old arrays.new (answered arrays.new result) }
{
    let l = arrays.walk_all(t);
    match l {
        Walked::Found => arrays.decide(c, l),
        Walked::Passed => {
            let u = last(t, arrays.left);
            let r = seek(u, arrays);
            arrays.decide_right(c + 1, size_before(t, u), r)
        }
        Walked::Full => Walked::Full,
    }
}

// The end of a star is its first move, the rounds' moves follow.
#[cycle(seeking)]
fn seek_star(t: &[u16], arrays: &mut Arrays) -> Walked
    requires { length t.now ≤ 65535 }
    ensures kept { Kept arrays.old arrays.new }
    ensures sought { Over (Sought (24 ∷ t.now)) arrays.old.k arrays.old arrays.new (answered arrays.new result) }
{
    if arrays.k == 0 {
        arrays.at = arrays.path.len();
        return arrays.decide(END as u16, Walked::Found);
    }
    arrays.k = arrays.k - 1;
    let r = seek(t, arrays);
    arrays.decide(ROUND as u16, r)
}

// Without a mask the moves are those of both sides, as in a choice.
#[cycle(seeking)]
fn seek_parallel(d: &[u16], arrays: &mut Arrays) -> Walked
    requires { length d.now ≤ 65535 }
    ensures kept { Kept arrays.old arrays.new }
    ensures sought { Over (Sought (25 ∷ d.now)) arrays.old.k arrays.old arrays.new (answered arrays.new result) }
{
    let t = behind_mask(d);
    if both_done(t) {
        let r = only(arrays);
        return arrays.decide(BOTH_DONE as u16, r);
    }
    seek_two(t, LEFT_MOVES as u16, arrays)
}

// The term's path where the condition holds, else none.
#[cycle(seeking)]
fn seek_guard(t: &[u16], arrays: &mut Arrays) -> Walked
    requires { length t.now ≤ 65535 }
    ensures kept { Kept arrays.old arrays.new }
    ensures sought { Over (Sought (26 ∷ t.now)) arrays.old.k arrays.old arrays.new (answered arrays.new result) }
{
    let c = eval_cond(t, arrays.store);
    if truth_of(c) == 0 {
        return Walked::Passed;
    }
    seek(last(t, words_left(c)), arrays)
}
