// The check of a given running term, with its reach and breadth in the same pass (document 01, "Unfolding, size and breadth";
// refusal 10).
// Stays: that the words are at most 8,192 is a clause of six functions here. Each is given another part of the words, and as a struct with this fact every part
// would be made one anew, with the same proof at the same places. That the tables stay the same (`Kept`) is a fact of before and after, which no field holds.
#![tactic(auto)]

ghost use Rattle.std.specs.Prelude.{◌≡◌, ◌≤◌, length};
ghost use Rattle.eb3.specs.Terms.{Star};
ghost use Rattle.eb3.specs.RuleSets.{sizes_of};
ghost use Rattle.eb3.specs.Reading.{giving, both};
ghost use Rattle.eb3.specs.TermReading.{elements_of, TermKind, action_of, term_by, read_term, given_term};
ghost use Rattle.measures.specs.Weighing.{measure};
ghost use Rattle.tables.specs.Tables.{edition_in, declared};
ghost use Rattle.term_check.specs.Given.{answer_of, weighed_running, given};
ghost use Rattle.term_check.specs.Answers.{left_after, weighed_pair};
ghost use Rattle.term_check.specs.Lending.{Kept, said};

use code_numbers::{ACTION, CHOICE, CONSTANT, GUARD, INTERNAL, PARALLEL, SEQUENCE, STAR};
use codes::{Due, code_due};
use expression_check::{Scope, check_cond};
use measures::{Joint, Limits, Weight, empty, guard, single, stars};
use tables::{MASK_WORDS, check_mask, functions, label_row, labels, mask_zero, size_of};
use words::repeats::leading;
use words::{behind, last};

// The reach and the breadth of a given term.
#[derive(Clone, Copy)]
pub struct Given {
    pub reach: u32,
    pub breadth: u32,
}

// What checks a running term: the tables of the rule set, and the reach and breadth of the term that was read last. Its size is the words that it took.
#[derive(Drop)]
struct Weigher<'a> {
    tables: &'a [u32],
    reach: u32,
    breadth: u32,
}

// ── terms ──

// An element of each of some domains, code 1 and a value: how many words are left, or None if not all are there.
#[tactic(auto, using(crate::proofs::Values::some_elements))]
fn elements(t: &[u16], tb: &[u32], ds: &[u32]) -> Option<usize>
    ensures { result ≡ left_after (elements_of 1 (sizes_of (declared tb.now) ds.now) t.now) }
{
    if t.len() / 2 < ds.len() {
        return None;
    }
    for i in 0..ds.len() {
        if t[2 * i] as usize != CONSTANT {
            return None;
        }
        if size_of(tb, ds[i] as usize) <= t[2 * i + 1] as usize {
            return None;
        }
    }
    Some(t.len() - 2 * ds.len())
}

// Each of these answers how many words are left, or None where there is no such term.
impl Weigher<'_> {
    // A term that was read, with what it measures.
    fn leaf(&mut self, left: usize, w: Weight) -> Option<usize>
        ensures kept { Kept self.old self.new }
        ensures read { said self.new result ≡ answer_of left (measure w) }
    {
        self.reach = w.reach;
        self.breadth = w.breadth;
        Some(left)
    }

    // The weight of the term that was read last, of n words.
    fn weight(&self, n: usize) -> Weight
        requires { n ≤ 8192 }
        ensures { measure result ≡ record { size = n; reach = self.now.reach; breadth = self.now.breadth } }
    {
        Weight {
            size: n as u32,
            reach: self.reach,
            breadth: self.breadth,
        }
    }

    // A label and its arguments.
    #[tactic(auto, using(crate::proofs::Leaves::actions))]
    fn action(&mut self, t: &[u16]) -> Option<usize>
        requires { length t.now ≤ 8192 }
        ensures kept { Kept self.old self.new }
        ensures read { said self.new result ≡ weighed_running (action_of (declared self.old.tables.now) t.now) }
    {
        if t.len() == 0 {
            return None;
        }
        let l = t[0] as usize;
        if labels(self.tables) <= l {
            return None;
        }
        let ds = label_row(self.tables, l);
        let m = elements(behind(t), self.tables, ds)?;
        self.leaf(m, single(2 + 2 * ds.len() as u64))
    }

    // A term under a star, of the words after that star's code: the other stars before it are counted and not descended into.
    #[cycle(running)]
    #[tactic(auto, using(crate::proofs::Nested::starred_terms))]
    fn starred(&mut self, t: &[u16]) -> Option<usize>
        requires { length t.now ≤ 8192 }
        ensures kept { Kept self.old self.new }
        ensures read { said self.new result ≡ weighed_running (giving Star (read_term (declared self.old.tables.now) t.now)) }
    {
        let k = leading(t, STAR);
        let n = t.len() - k;
        let left = self.check(last(t, n))?;
        self.leaf(left, stars(k + 1, self.weight(n - left)))
    }

    // Two terms in a row. Inlined, since its frame would come on top of that of `check` at each level.
    #[cycle(running)]
    #[inline(always)]
    #[tactic(auto, using(crate::proofs::Parts::pairs))]
    fn two_terms(&mut self, t: &[u16], joint: Joint) -> Option<usize>
        requires { length t.now ≤ 8192 }
        ensures kept { Kept self.old self.new }
        ensures read { said self.new result ≡ weighed_pair joint (both (read_term (declared self.old.tables.now)) (read_term (declared self.old.tables.now)) t.now) }
    {
        let n = self.check(t)?;
        let w = self.weight(t.len() - n);
        let left = self.check(last(t, n))?;
        self.leaf(left, measures::joined(joint, w, self.weight(n - left)))
    }

    // A mask and two terms.
    #[cycle(running)]
    #[tactic(auto, using(crate::proofs::Parts::parallels))]
    fn in_parallel(&mut self, t: &[u16]) -> Option<usize>
        requires { length t.now ≤ 8192 }
        ensures kept { Kept self.old self.new }
        ensures read { said self.new result ≡ weighed_running (term_by (declared self.old.tables.now) (read_term (declared self.old.tables.now)) TermKind.parallel t.now) }
    {
        let Ok(n) = check_mask(t, MASK_WORDS, labels(self.tables)) else {
            return None;
        };
        self.two_terms(last(t, n), Joint::Parallel(mask_zero(t)))
    }

    // A condition, whose size is the words that it took, and a term.
    #[cycle(running)]
    #[tactic(auto, using(crate::proofs::Parts::guards))]
    fn guarded(&mut self, t: &[u16]) -> Option<usize>
        requires { length t.now ≤ 8192 }
        ensures kept { Kept self.old self.new }
        ensures read { said self.new result ≡ weighed_running (term_by (declared self.old.tables.now) (read_term (declared self.old.tables.now)) TermKind.guard t.now) }
    {
        let c = Scope {
            variables: 0,
            now: functions(self.tables),
            before: 0,
        };
        let Ok(n) = check_cond(t, c) else {
            return None;
        };
        let left = self.check(last(t, n))?;
        self.leaf(left, guard((t.len() - n) as u64, self.weight(n - left)))
    }

    // The running term at the front.
    #[cycle(running)]
    #[tactic(auto, using(crate::proofs::Codes::codes))]
    fn check(&mut self, s: &[u16]) -> Option<usize>
        requires { length s.now ≤ 8192 }
        ensures kept { Kept self.old self.new }
        ensures read { said self.new result ≡ weighed_running (read_term (declared self.old.tables.now) s.now) }
    {
        let Ok(w) = code_due(s, 0, Due::RunningTerm) else {
            return None;
        };
        let t = behind(s);
        match w {
            INTERNAL => self.leaf(t.len(), single(1)),
            ACTION => self.action(t),
            SEQUENCE => self.two_terms(t, Joint::Sequence),
            CHOICE => self.two_terms(t, Joint::Choice),
            STAR => self.starred(t),
            PARALLEL => self.in_parallel(t),
            GUARD => self.guarded(t),
            // done
            _ => self.leaf(t.len(), empty()),
        }
    }
}

// Exactly one running term of the rule set that the tables declare, within the limits.
pub fn given_term(s: &[u16], tb: &[u32]) -> Option<Given>
    ensures { result ≡ given (edition_in tb.now).width (given_term (declared tb.now) s.now) }
{
    // No term has more words than its reach.
    if s.len() > Limits::REACH as usize {
        return None;
    }
    let mut weigher = Weigher {
        tables: tb,
        reach: 0,
        breadth: 0,
    };
    let left = weigher.check(s)?;
    if left != 0 {
        return None;
    }
    let w = weigher;
    if Limits::REACH < w.reach {
        return None;
    }
    if Limits::BREADTH < w.breadth {
        return None;
    }
    Some(Given {
        reach: w.reach,
        breadth: w.breadth,
    })
}
