// The path of move k of a running term, found in one walk over the term (document 01, "Moves, in order").
// Stays: that words are at most 65,535 is a clause of each function here, for the reason in successors (docs/DESIGN-PASS.md, "A struct for words").
#![tactic(auto)]

ghost use Rattle.std.specs.Prelude.{◌≡◌, List, ℕ, ◌+◌, ◌-◌, ◌≤◌, ◌<◌, ◌∷◌, length};
ghost use Rattle.derivation.specs.declared.arrays.Derivation.TheVariants.{At, Behind};
ghost use Rattle.derivation.specs.Derived.{Derived, DerivedShown};
ghost use Rattle.derivation.specs.Lending.{Kept, Over, answered};
ghost use Rattle.derivation.specs.Arms.{ActionDerived, TwoDerived, RightDerived, LeftDerived, ListedDerived, MaskedDerived, SidesDerived};
ghost use Rattle.paths.specs.Paths.{left_alone, right_alone, together};

use actions::{behind_action, code_at, in_set, join, mask_set};
use code_numbers::{ACTION, CHOICE, DONE, GUARD, INTERNAL, PARALLEL, SEQUENCE, STAR};
use expressions::{eval_cond, truth_of, words_left};
use listing::{behind_mask, both_done, idle, list, skip};
use located::Located;
use paths::{BOTH_DONE, BOTH_MOVE, CHOOSE_LEFT, END, LEFT_MOVES, RIGHT_MOVES, ROUND};
use searching::locate;
use words::{behind, first, last};

mod answering;
mod arrays;
mod located;
mod scratch;
mod searching;

pub use arrays::{Arrays, Derivation, Walked};
pub use scratch::Scratch;

// How many words of t are before its last words u.
pub fn size_before(t: &[u16], u: &[u16]) -> u16
    requires { (length t.now ≤ 65535) × (length u.now ≤ length t.now) }
    ensures { result ≡ length t.now - length u.now }
{
    (t.len() - u.len()) as u16
}

// One move, whose path is empty: it begins at this end. `left` words come after it, and it is passed where k is not 0.
// Stays beside `Arrays::single`, whose end is that of its path, though no crate here calls it any more: a rule of the project, a public function keeps its
// promise.
pub fn single(k: usize, left: usize, end: usize) -> Derivation
    requires { (k < 131072) × (left ≤ 65535) }
    ensures { (k ≡ 0 → result ≡ At end) × (1 ≤ k → result ≡ Behind (k - 1) left) }
{
    if k == 0 {
        return Derivation::At(end);
    }
    Derivation::Behind { k: k - 1, left }
}

// ── the walk ──

// Writes the path at the end of a lent array; acts is room for listing moves at parallels with a mask.
// Stays: the store and the two arrays come one by one, since it is public; they become `Arrays` at once. That the path keeps its length is a
// fact of what it was and what it is then, which no field of a struct holds.
pub fn derive(s: &[u16], m: &[u16], k: usize, path: &mut [u16], acts: &mut [u32]) -> Derivation
    requires { (length s.now ≤ 65535) × (k < 65536) × (length path.old ≤ 65535) × (length acts.old ≤ 131072) }
    ensures kept { length path.new ≡ length path.old }
    ensures derived { Derived s.now m.now k path.old path.new (length acts.old) result }
{
    derive_lent(s, m, k, path, acts)
}

// The same over arrays that are lent one by one, as the part of a path array that is left free; and for every k that is a place in acts, since a side
// of a parallel may have as many moves as acts has places. Stays with the parameters of `derive`, which calls it, and their facts.
// Inlined, since its frame would come on top of derive_listed's at each level.
#[cycle(deriving)]
#[inline(always)]
fn derive_lent(s: &[u16], store: &[u16], k: usize, path: &mut [u16], acts: &mut [u32]) -> Derivation
    requires { (length s.now ≤ 65535) × (k < 131072) × (length path.old ≤ 65535) × (length acts.old ≤ 131072) }
    ensures { DerivedShown 0 s.now store.now k path.old path.new (length acts.old) result }
{
    let mut arrays = Arrays {
        store,
        path,
        acts,
        k,
        at: 0,
        left: 0,
    };
    match arrays.walk(s, 0) {
        Walked::Found => Derivation::At(arrays.at),
        Walked::Passed => Derivation::Behind {
            k: arrays.k,
            left: arrays.left,
        },
        Walked::Full => Derivation::NoRoom,
    }
}

// Stays: t and x are two parameters of each walk. A call for an operand is handed another t, so that a struct of them would be made anew at every level.
// Stays: that u is no longer than t is a fact of both, asked where both are handed on; and that the arrays stay the same and keep their lengths (`Kept`) is a
// fact of what they were and what they are then: no field of a struct holds either.
impl Arrays<'_> {
    // The path of move k, of those that show below masks that hide the labels of x: so nothing need be listed where masks within one another leave one
    // side's moves only.
    #[cycle(deriving)]
    fn walk(&mut self, s: &[u16], x: u64) -> Walked
        requires { length s.now ≤ 65535 }
        ensures kept { Kept self.old self.new }
        ensures derived { Over (DerivedShown x s.now) self.old.k self.old self.new (answered self.new result) }
    {
        let w = first(s);
        let t = behind(s);
        match w {
            INTERNAL => self.single(t.len()),
            ACTION => self.derive_action(t, x),
            SEQUENCE => self.derive_sequence(t, x),
            CHOICE => self.derive_two(t, x, CHOOSE_LEFT as u16),
            STAR => self.derive_star(t, x),
            PARALLEL => self.derive_parallel(t, x),
            GUARD => self.derive_guard(t, x),
            _ => self.passing(t.len()),
        }
    }

    // An action whose label a mask above hides is no move that shows.
    fn derive_action(&mut self, t: &[u16], x: u64) -> Walked
        requires { length t.now ≤ 65535 }
        ensures kept { Kept self.old self.new }
        ensures path { self.new.path.now ≡ self.old.path.now }
        ensures derived { ActionDerived x t.now self.old.k (length self.old.path.now) (answered self.new result) }
    {
        if in_set(x, code_at(t)) {
            return self.passing(behind_action(t));
        }
        self.single(behind_action(t))
    }

    // The left term's path, or the right's where the left is done.
    #[cycle(deriving)]
    fn derive_sequence(&mut self, t: &[u16], x: u64) -> Walked
        requires { length t.now ≤ 65535 }
        ensures kept { Kept self.old self.new }
        ensures derived { Over (DerivedShown x (22 ∷ t.now)) self.old.k self.old self.new (answered self.new result) }
    {
        if first(t) == DONE {
            return self.walk(behind(t), x);
        }
        let l = self.walk(t, x);
        match l {
            Walked::Found => l,
            Walked::Passed => self.passing(skip(last(t, self.left))),
            Walked::Full => Walked::Full,
        }
    }

    // The path in the first of two terms, or in the second for what the first's moves leave of k. Before it is written c for the first, c + 1 for
    // the second: of a choice these are 0 and 1, of a parallel 1 and 2.
    // Stays: c is the word that is written, so that an enum of the two forms would only be turned back into it.
    // Inlined, since its frame would come on top of walk's at each level.
    #[cycle(deriving)]
    #[inline(always)]
    fn derive_two(&mut self, t: &[u16], x: u64, c: u16) -> Walked
        requires { (length t.now ≤ 65535) × (c ≤ 1) }
        ensures kept { Kept self.old self.new }
        ensures derived { Over (TwoDerived x c t.now) self.old.k self.old self.new (answered self.new result) }
    {
        let l = self.walk(t, x);
        match l {
            Walked::Found => self.decide(c, l),
            Walked::Passed => {
                let u = last(t, self.left);
                let r = self.walk(u, x);
                self.decide_right(c + 1, size_before(t, u), r)
            }
            Walked::Full => Walked::Full,
        }
    }

    // The end of a star is its first move, the rounds' moves follow.
    #[cycle(deriving)]
    fn derive_star(&mut self, t: &[u16], x: u64) -> Walked
        requires { length t.now ≤ 65535 }
        ensures kept { Kept self.old self.new }
        ensures derived { Over (DerivedShown x (24 ∷ t.now)) self.old.k self.old self.new (answered self.new result) }
    {
        if self.k == 0 {
            self.at = self.path.len();
            return self.decide(END as u16, Walked::Found);
        }
        self.k = self.k - 1;
        let r = self.walk(t, x);
        self.decide(ROUND as u16, r)
    }

    // Where the mask hides no more than those above, the moves of both sides that show are those of a choice: none is made by both together.
    #[cycle(deriving)]
    fn derive_parallel(&mut self, d: &[u16], x: u64) -> Walked
        requires { length d.now ≤ 65535 }
        ensures kept { Kept self.old self.new }
        ensures derived { Over (DerivedShown x (25 ∷ d.now)) self.old.k self.old self.new (answered self.new result) }
    {
        let t = behind_mask(d);
        if both_done(t) {
            let v = behind(behind(t));
            let r = self.single(v.len());
            return self.decide(BOTH_DONE as u16, r);
        }
        let mask = mask_set(d);
        if join(x, mask) == x {
            return self.derive_two(t, x, LEFT_MOVES as u16);
        }
        self.derive_masked(t, x, mask)
    }

    // A side that can never move leaves the other's moves that show below this mask too, so that nothing need be listed.
    #[cycle(deriving)]
    fn derive_masked(&mut self, t: &[u16], x: u64, mask: u64) -> Walked
        requires { length t.now ≤ 65535 }
        ensures kept { Kept self.old self.new }
        ensures derived { Over (MaskedDerived x mask t.now) self.old.k self.old self.new (answered self.new result) }
    {
        if idle(t) {
            return self.derive_right(t, join(x, mask));
        }
        if idle(last(t, skip(t))) {
            return self.derive_left(t, join(x, mask));
        }
        self.derive_listed(t, x, mask)
    }

    // The path of the right side, which moves alone.
    #[cycle(deriving)]
    fn derive_right(&mut self, t: &[u16], y: u64) -> Walked
        requires { length t.now ≤ 65535 }
        ensures kept { Kept self.old self.new }
        ensures derived { Over (RightDerived y t.now) self.old.k self.old self.new (answered self.new result) }
    {
        let u = last(t, skip(t));
        let r = self.walk(u, y);
        self.decide_right(RIGHT_MOVES as u16, size_before(t, u), r)
    }

    // The path of the left side, which moves alone.
    // Stays: it ends as derive_sequence does, but a function for these lines would have a contract longer than they are.
    #[cycle(deriving)]
    fn derive_left(&mut self, t: &[u16], y: u64) -> Walked
        requires { length t.now ≤ 65535 }
        ensures kept { Kept self.old self.new }
        ensures derived { Over (LeftDerived y t.now) self.old.k self.old self.new (answered self.new result) }
    {
        let l = self.walk(t, y);
        match l {
            Walked::Found => self.decide(LEFT_MOVES as u16, l),
            Walked::Passed => self.passing(skip(last(t, self.left))),
            Walked::Full => Walked::Full,
        }
    }

    // The sides of the move are found among both sides' moves, listed; then acts is free for the sides. Not put into the walk, whose every level would have the
    // frame that listing takes.
    #[cycle(deriving)]
    #[inline(never)]
    fn derive_listed(&mut self, t: &[u16], x: u64, mask: u64) -> Walked
        requires { length t.now ≤ 65535 }
        ensures kept { Kept self.old self.new }
        ensures derived { Over (ListedDerived x mask t.now) self.old.k self.old self.new (answered self.new result) }
    {
        let Some(l) = list(t, self.store, self.acts) else {
            return Walked::Full;
        };
        let u = last(t, l.left);
        let n = l.count;
        let Some(r) = list(u, self.store, &mut self.acts[n..]) else {
            return Walked::Full;
        };
        let (left, rest) = self.acts.split_at(n);
        let j = r.count;
        match locate(x, mask, left, &rest[..j], self.k) {
            Located::Left(i) => self.derive_left_alone(t, i),
            Located::Right(j) => self.derive_right_alone(t, u, j),
            Located::Both(i, j) => self.derive_both(t, u, i, j),
            Located::Passed(due) => {
                let v = last(u, r.left);
                self.k = due;
                self.passing(v.len())
            }
        }
    }

    // The path of move i of all the left side's, which it makes alone, whatever the words u after it are.
    #[cycle(deriving)]
    fn derive_left_alone(&mut self, t: &[u16], i: usize) -> Walked
        requires { (length t.now ≤ 65535) × (i < 131072) }
        ensures kept { Kept self.old self.new }
        ensures derived { (u : List ℕ) → Over (λ M k. SidesDerived t.now u M (left_alone k)) i self.old self.new (answered self.new result) }
    {
        self.k = i;
        let l = self.walk(t, 0);
        match l {
            Walked::Found => self.decide(LEFT_MOVES as u16, l),
            _ => Walked::Full,
        }
    }

    // The path of move j of all the right side's, which it makes alone.
    #[cycle(deriving)]
    fn derive_right_alone(&mut self, t: &[u16], u: &[u16], j: usize) -> Walked
        requires { (length t.now ≤ 65535) × (length u.now ≤ length t.now) × (j < 131072) }
        ensures kept { Kept self.old self.new }
        ensures derived { Over (λ M k. SidesDerived t.now u.now M (right_alone k)) j self.old self.new (answered self.new result) }
    {
        self.k = j;
        let r = self.walk(u, 0);
        match r {
            Walked::Found => self.decide_right(RIGHT_MOVES as u16, size_before(t, u), r),
            _ => Walked::Full,
        }
    }

    // The right side's path at the end, the left's before it.
    #[cycle(deriving)]
    fn derive_both(&mut self, t: &[u16], u: &[u16], i: usize, j: usize) -> Walked
        requires { (length t.now ≤ 65535) × (length u.now ≤ length t.now) × (i < 131072) × (j < 131072) }
        ensures kept { Kept self.old self.new }
        ensures derived { Over (λ M k. SidesDerived t.now u.now M (together i k)) j self.old self.new (answered self.new result) }
    {
        self.k = j;
        match self.walk(u, 0) {
            Walked::Found => {
                let before = derive_lent(t, self.store, i, &mut self.path[..self.at], self.acts);
                match before {
                    Derivation::At(p) => {
                        self.at = p;
                        self.decide_right(BOTH_MOVE as u16, size_before(t, u), Walked::Found)
                    }
                    _ => Walked::Full,
                }
            }
            _ => Walked::Full,
        }
    }

    // The term's path where the condition holds, else none.
    #[cycle(deriving)]
    fn derive_guard(&mut self, t: &[u16], x: u64) -> Walked
        requires { length t.now ≤ 65535 }
        ensures kept { Kept self.old self.new }
        ensures derived { Over (DerivedShown x (26 ∷ t.now)) self.old.k self.old self.new (answered self.new result) }
    {
        let c = eval_cond(t, self.store);
        let u = last(t, words_left(c));
        if truth_of(c) == 0 {
            return self.passing(skip(u));
        }
        self.walk(u, x)
    }

    // The path of move k of all moves.
    pub fn walk_all(&mut self, s: &[u16]) -> Walked
        requires { length s.now ≤ 65535 }
        ensures kept { Kept self.old self.new }
        ensures derived { Over (Derived s.now) self.old.k self.old self.new (answered self.new result) }
    {
        self.walk(s, 0)
    }
}
