// The moves of a running term, listed by their actions' numbers in a lent array, in order (document 01, "Moves, in order";
// counting recurses into operand terms, term length falling).
// Stays: that words are at most 65,535 is a clause of each function here, for the reason in successors (docs/DESIGN-PASS.md, "A struct for words").
#![tactic(auto)]

ghost use Rattle.std.specs.Prelude.{◌≡◌, ℕ, ◌≤◌, List, ◌∷◌, length, drop, get_or, ◌&&◌, eqb};
ghost use Rattle.eb3.specs.Scopes.{Scope};
ghost use Rattle.eb3.specs.Terms.{Term, done?};
ghost use Rattle.eb3.specs.Sizes.{breadth};
ghost use Rattle.listing.specs.Positions.{TwoAt};
ghost use Rattle.listing.specs.Arms.{OneListed, ShownListed, TwoListed, MaskedListed};
ghost use Rattle.listing.specs.Lending.{Kept, Into};
ghost use Rattle.listing.specs.Listing.{TermAt, Listed};
ghost use Rattle.listing.specs.Rows.{RowAt};

use actions::{behind_action, code_at, in_set, join, mask_set};
use code_numbers::{ACTION, CHOICE, DONE, GUARD, INTERNAL, PARALLEL, SEQUENCE, STAR};
use codes::EDITION_1;
use combining::combine;
use expressions::{eval_cond, truth_of, words_left};
use lister::Lister;
use tables::MASK_WORDS;
use words::{after, behind, first, last};

mod combining;
mod lister;

pub use lister::Moves;

// ── skipping ──

// Stays three functions that call those of `codes` for edition 1: their contracts are of terms, and those of `codes` of expressions and terms of any shape,
// so that each of their many callers would have to name the shape and to show anew that its words are a term's.

// The words left after n terms in a row.
// Stays: n counts terms, and does not say how many of the words count.
pub fn skip_row(s: &[u16], n: usize) -> usize
    requires { (length s.now ≤ 65535) × (n ≤ 65535) }
    ensures { (result ≤ length s.now) × ((P : Scope) (Es : List Term) (rest : List ℕ) → RowAt s.now P Es rest → n ≡ length Es → result ≡ length rest) }
{
    codes::skip_row(s, n, EDITION_1)
}

// The words left after the term at the front.
pub fn skip(s: &[u16]) -> usize
    requires { length s.now ≤ 65535 }
    ensures { (result ≤ length s.now) × ((P : Scope) (E : Term) (rest : List ℕ) → TermAt s.now P E rest → result ≡ length rest) }
{
    codes::skip(s, EDITION_1)
}

// Whether the term at the front can never move.
pub fn idle(s: &[u16]) -> bool
    requires { length s.now ≤ 65535 }
    ensures { (P : Scope) (E : Term) (rest : List ℕ) → TermAt s.now P E rest → result ≡ eqb (breadth E) 0 }
{
    codes::idle(s, EDITION_1)
}

// ── listing ──

// The words after the mask at the front.
pub fn behind_mask(d: &[u16]) -> &[u16]
    ensures { result.now ≡ drop 4 d.now }
{
    after(d, MASK_WORDS)
}

// Whether both of the terms at the front are done.
pub fn both_done(t: &[u16]) -> bool
    ensures { (P : Scope) (E F : Term) (rest : List ℕ) → TwoAt t.now P E F rest → result ≡ (done? E && done? F) }
{
    first(t) == DONE && first(behind(t)) == DONE
}

// The moves of the term at the front, at the front of `acts`; or None where there was no room.
pub fn list(s: &[u16], m: &[u16], acts: &mut [u32]) -> Option<Moves>
    requires { length s.now ≤ 65535 }
    ensures { Listed s.now m.now acts.old acts.new result }
{
    let mut lister = Lister {
        store: m,
        acts,
        count: 0,
    };
    let left = lister.list_shown(s, 0)?;
    Some(Moves {
        count: lister.count,
        left,
    })
}

// Each of these lists moves after those that are listed already, and answers how many words are left after the term, or None where there was no room.
// Stays: the words and x are parameters. Of the 19 calls here that take both, 14 hand on other words than the caller's, and list_sequence, list_two,
// list_masked and list_combined read their own again after a call, list_two and list_combined also their x: fields would have to be put back there.
// Stays: that the array stays the same and keeps what is listed (`Kept`) is a fact of what it was and what it is then, which no field of a struct holds.
impl Lister<'_> {
    // One move.
    fn list_one(&mut self, code: u32, left: usize) -> Option<usize>
        requires { left ≤ 65535 }
        ensures kept { Kept self.old self.new result }
        ensures listed { Into (OneListed code left) self.old self.new result }
    {
        let at = self.count;
        if self.acts.len() <= at {
            return None;
        }
        self.acts[at] = code;
        self.count = at + 1;
        Some(left)
    }

    // An action's move, or none where its label is in x.
    fn list_action(&mut self, t: &[u16], x: u64) -> Option<usize>
        requires { length t.now ≤ 65535 }
        ensures kept { Kept self.old self.new result }
        ensures listed { Into (ShownListed x (21 ∷ t.now)) self.old self.new result }
    {
        let a = code_at(t);
        let n = behind_action(t);
        if in_set(x, a) {
            return Some(n);
        }
        self.list_one(a, n)
    }

    // The moves whose labels are not in x. The set goes down with the masks above, so that a parallel beside a side that can never move takes nothing away
    // from a list that is made, which would be a copy of it at every such parallel.
    // A sequence whose left term is done has an arm of its own, so that the call for its right term is a loop (measured, of many within one another:
    // tested in list_sequence, 1.18 times the instructions, and a level of the stack for each; docs/DESIGN-PASS.md, "Answers packed in one number").
    #[cycle(listing_terms)]
    fn list_shown(&mut self, s: &[u16], x: u64) -> Option<usize>
        requires { length s.now ≤ 65535 }
        ensures kept { Kept self.old self.new result }
        ensures listed { Into (ShownListed x s.now) self.old self.new result }
    {
        let w = first(s);
        let t = behind(s);
        match w {
            INTERNAL => self.list_one(0, t.len()),
            ACTION => self.list_action(t, x),
            SEQUENCE if first(t) == DONE => self.list_shown(behind(t), x),
            SEQUENCE => self.list_sequence(t, x),
            CHOICE => self.list_two(t, x),
            STAR => self.list_star(t, x),
            PARALLEL => self.list_parallel(t, x),
            GUARD => self.list_guard(t, x),
            _ => Some(t.len()),
        }
    }

    // The left term's moves; it is not done.
    #[cycle(listing_terms)]
    #[tactic(auto, using(words::specs::Laws::Checking::last_len))]
    fn list_sequence(&mut self, t: &[u16], x: u64) -> Option<usize>
        requires { (length t.now ≤ 65535) × (get_or t.now 0 0 ≡ 30 → ⊥) }
        ensures kept { Kept self.old self.new result }
        ensures listed { Into (ShownListed x (22 ∷ t.now)) self.old self.new result }
    {
        let left = self.list_shown(t, x)?;
        Some(skip(last(t, left)))
    }

    // The moves of two terms, the second's after the first's.
    #[cycle(listing_terms)]
    #[tactic(auto, using(words::specs::Laws::Checking::last_len))]
    fn list_two(&mut self, t: &[u16], x: u64) -> Option<usize>
        requires { length t.now ≤ 65535 }
        ensures kept { Kept self.old self.new result }
        ensures listed { Into (TwoListed x t.now) self.old self.new result }
    {
        let left = self.list_shown(t, x)?;
        self.list_shown(last(t, left), x)
    }

    // An internal move, and the term's moves after it.
    #[cycle(listing_terms)]
    fn list_star(&mut self, t: &[u16], x: u64) -> Option<usize>
        requires { length t.now ≤ 65535 }
        ensures kept { Kept self.old self.new result }
        ensures listed { Into (ShownListed x (24 ∷ t.now)) self.old self.new result }
    {
        self.list_one(0, t.len())?;
        self.list_shown(t, x)
    }

    // Both sides' moves; where the mask adds no label to x they are those of a choice, since no action that is shown is in it.
    #[cycle(listing_terms)]
    fn list_parallel(&mut self, d: &[u16], x: u64) -> Option<usize>
        requires { length d.now ≤ 65535 }
        ensures kept { Kept self.old self.new result }
        ensures listed { Into (ShownListed x (25 ∷ d.now)) self.old self.new result }
    {
        let t = behind_mask(d);
        if both_done(t) {
            let v = behind(behind(t));
            return self.list_one(0, v.len());
        }
        let y = join(x, mask_set(d));
        if y == x {
            return self.list_two(t, x);
        }
        self.list_masked(d, x)
    }

    // Both sides' moves by the mask at the front; beside a side that can never move, the other's outside the mask. That the left side is skipped before it
    // is listed costs little: of parallels within one another, beside such a side x gains one of 64 labels, and where both sides can move the breadth doubles.
    #[cycle(listing_terms)]
    #[tactic(auto, using(words::specs::Laws::Checking::last_len, crate::specs::Laws::Operands::mask_len))]
    fn list_masked(&mut self, d: &[u16], x: u64) -> Option<usize>
        requires { length d.now ≤ 65535 }
        ensures kept { Kept self.old self.new result }
        ensures listed { Into (MaskedListed x d.now) self.old self.new result }
    {
        let t = behind_mask(d);
        let u = last(t, skip(t));
        let y = join(x, mask_set(d));
        if idle(t) {
            return self.list_shown(u, y);
        }
        if idle(u) {
            self.list_shown(t, y)?;
            return Some(skip(u));
        }
        self.list_combined(d, x)
    }

    // Both sides' moves, combined by the mask at the front.
    #[cycle(listing_terms)]
    #[tactic(auto, using(words::specs::Laws::Checking::last_len, crate::specs::Laws::Operands::mask_len))]
    fn list_combined(&mut self, d: &[u16], x: u64) -> Option<usize>
        requires { length d.now ≤ 65535 }
        ensures kept { Kept self.old self.new result }
        ensures listed { Into (MaskedListed x d.now) self.old self.new result }
    {
        let t = behind_mask(d);
        let at = self.count;
        let n = self.list_shown(t, x)?;
        let middle = self.count;
        let left = self.list_shown(last(t, n), x)?;
        let k = self.count - middle;
        let c = combine(mask_set(d), middle - at, k, &mut self.acts[at..])?;
        self.count = at + c;
        Some(left)
    }

    // The term's moves where the condition holds, else none.
    #[cycle(listing_terms)]
    #[tactic(auto, using(words::specs::Laws::Checking::last_len))]
    fn list_guard(&mut self, t: &[u16], x: u64) -> Option<usize>
        requires { length t.now ≤ 65535 }
        ensures kept { Kept self.old self.new result }
        ensures listed { Into (ShownListed x (26 ∷ t.now)) self.old self.new result }
    {
        let c = eval_cond(t, self.store);
        let u = last(t, words_left(c));
        if truth_of(c) == 0 {
            return Some(skip(u));
        }
        self.list_shown(u, x)
    }
}
