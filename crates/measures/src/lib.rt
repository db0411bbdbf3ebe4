// Size, reach and breadth of a term from those of its parts, each cut off at 65,536, which is above both limits; and the
// limits (document 01, "Unfolding, size and breadth"; refusals 7 and 8).
#![tactic(auto)]

ghost use Rattle.std.specs.Prelude.{◌≡◌, Bool, ℕ, ◌+◌, ◌*◌, ◌^◌, ◌≤◌, ◌<◌, max, min};
ghost use Rattle.eb3.specs.Unfolding.{right_nest};
ghost use Rattle.eb3.specs.Measures.{Measure, sat, leaf, nothing, sequence_of, choice_of, star_of, parallel_breadth_of, guard_of};
ghost use Rattle.measures.specs.Weighing.{measure, cap, reported, parallel_by, joint_of, stars_of, steps};

#[derive(Clone, Copy)]
pub struct Weight {
    pub size: u32,
    pub reach: u32,
    pub breadth: u32,
}

// How two terms are put together: in a parallel, whether its mask is zero.
// Stays: that, and `zero` of the functions below, is a Bool. The specification's own functions take this Bool, and the check of a mask answers it:
// an enum beside it would be one name more for the same, turned into the Bool in every clause.
#[derive(Clone, Copy)]
pub enum Joint {
    Sequence,
    Choice,
    Parallel(bool),
}

// The numbers that a rule set is judged by, and those that are reported of one: C, G, W and the start term's size.
#[derive(Clone, Copy)]
pub struct Limits {
    pub cells: u32,
    pub reach: u32,
    pub breadth: u32,
    pub size: u32,
}

impl Limits {
    pub const REACH: u32 = 8192;

    pub const BREADTH: u32 = 65535;

    // The reported sizes of a rule set with that many cells, whose main process has these measures.
    // Stays: three fields are copied. With the weight as one field, whatever reads a report would name that field before them.
    pub fn new(cells: u32, w: Weight) -> Limits
        ensures { result ≡ reported cells (measure w) }
    {
        Limits {
            cells,
            reach: w.reach,
            breadth: w.breadth,
            size: w.size,
        }
    }
}

// A number of words.
// Stays, though no crate here calls it any more and today's form is a cast in place: a rule of the project, a public function keeps its promise.
pub fn narrow(x: usize) -> u64
    ensures { result ≡ x }
{
    x as u64
}

fn cut(n: u64) -> u32
    ensures { result ≡ sat cap n }
{
    // Stays: as n.min(65536) it is slower, a Count of 900 parallels by a tenth (61.7 microseconds, and not 56.1).
    if n <= 65536 { n as u32 } else { 65536 }
}

// k + a + b, cut off at each step.
fn sum(k: u64, a: u32, b: u32) -> u32
    requires { k ≤ 65536 }
    ensures { result ≡ sat cap (sat cap (k + a) + b) }
{
    cut(cut(k + a as u64) as u64 + b as u64)
}

// A term of n words with one move.
pub fn single(n: u64) -> Weight
    ensures { measure result ≡ leaf (sat cap) n }
{
    let k = cut(n);
    Weight {
        size: k,
        reach: k,
        breadth: 1,
    }
}

pub fn empty() -> Weight
    ensures { measure result ≡ nothing (sat cap) }
{
    Weight {
        size: 1,
        reach: 1,
        breadth: 0,
    }
}

pub fn sequence(a: Weight, b: Weight) -> Weight
    ensures { measure result ≡ sequence_of (sat cap) (measure a) (measure b) }
{
    Weight {
        size: sum(1, a.size, b.size),
        reach: sum(1, a.reach, b.size).max(b.reach),
        breadth: a.breadth.max(b.breadth),
    }
}

pub fn choice(a: Weight, b: Weight) -> Weight
    ensures { measure result ≡ choice_of (sat cap) (measure a) (measure b) }
{
    let size = sum(1, a.size, b.size);
    Weight {
        size,
        reach: size.max(a.reach).max(b.reach),
        breadth: cut(a.breadth as u64 + b.breadth as u64),
    }
}

pub fn star(a: Weight) -> Weight
    ensures { measure result ≡ star_of (sat cap) (measure a) }
{
    Weight {
        size: cut(1 + a.size as u64),
        reach: sum(2, a.reach, a.size),
        breadth: cut(1 + a.breadth as u64),
    }
}

// The breadth of a parallel whose mask is zero, or is not.
fn ways(zero: bool, l: u32, r: u32) -> u32
    ensures { result ≡ parallel_breadth_of (sat cap) zero l r }
{
    let apart = cut(l as u64 + r as u64);
    if zero {
        return apart.max(1);
    }
    // Stays, though what follows says the same: many copies soon come to the cap and stay there, and so the next one need not wait for the sums of this one.
    // Without it the check of copies in parallel with a mask takes up to 2.1 times the time, measured.
    if 65536 <= apart {
        return 65536;
    }
    let joint = cut(l as u64 * r as u64);
    cut(apart as u64 + joint as u64).max(1)
}

// Inlined, since a call stores both weights and loads them: in the check of a given term 1.14 of the instructions for parallels (docs/DESIGN-PASS.md).
#[inline(always)]
pub fn parallel(zero: bool, a: Weight, b: Weight) -> Weight
    ensures { measure result ≡ parallel_by zero (measure a) (measure b) }
{
    Weight {
        size: sum(5, a.size, b.size),
        reach: sum(5, a.reach, b.reach),
        breadth: ways(zero, a.breadth, b.breadth),
    }
}

// What two terms measure together.
// Inlined, for the same reason.
#[inline(always)]
#[tactic(auto, unfolding(crate::specs::Weighing::joint_of))]
pub fn joined(joint: Joint, a: Weight, b: Weight) -> Weight
    ensures { measure result ≡ joint_of joint (measure a) (measure b) }
{
    match joint {
        Joint::Sequence => sequence(a, b),
        Joint::Choice => choice(a, b),
        Joint::Parallel(zero) => parallel(zero, a, b),
    }
}

// A guard, whose condition is n words.
pub fn guard(n: u64, a: Weight) -> Weight
    requires { n < 2 ^ 63 }
    ensures { measure result ≡ guard_of (sat cap) n (measure a) }
{
    let size = cut(cut(1 + n) as u64 + a.size as u64);
    Weight {
        size,
        reach: size.max(a.reach),
        breadth: a.breadth,
    }
}

// A weight after n steps, each from the weight before it.
// Stays: that the closure may always be called is what every call of one asks, and no type says it.
fn repeated<F: Fn(Weight) -> Weight>(n: usize, from: Weight, step: F) -> Weight
    requires { F.IsAlwaysCallable step }
    ensures { (f : Measure → Measure) → ((w v : Weight) → F.post step w v → measure v ≡ f (measure w)) → measure result ≡ steps f n (measure from) }
{
    let mut w = from;
    for _ in 0..n {
        w = step(w);
    }
    w
}

// n copies of a term, nested to the right.
pub fn copies(joint: Joint, n: usize, a: Weight) -> Weight
    ensures { measure result ≡ right_nest (nothing (sat cap)) (joint_of joint) n (λ x. measure a) }
{
    if n == 0 {
        return empty();
    }
    repeated(n - 1, a, |w| joined(joint, a, w))
}

// n stars, one around the other.
pub fn stars(n: usize, a: Weight) -> Weight
    ensures { measure result ≡ stars_of n (measure a) }
{
    repeated(n, a, star)
}
