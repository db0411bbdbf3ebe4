// Searching the numbers of both sides' moves for the sides that make move k of a parallel (document 01, "Moves, in order").
ghost use Rattle.std.specs.Prelude.{◌≡◌, Bool, ℕ, ◌≤◌, ◌<◌, length};
ghost use Rattle.paths.specs.Paths.{paired};
ghost use Rattle.derivation.specs.Searching.{nth_place, nth_pair, LocatedBy, InList, InLists, InSides};

use crate::located::Located;
use actions::{in_set, join};

// The place of the k-th number that passes a test, or what is left of k.
// Stays, here and below: that a list has at most 131,072 numbers, and that k is less than that, are clauses. The lists are parts of one lent array, and a
// struct of both sides would be made for one call of each function.
// Stays a loop, as the next: where fewer than k numbers pass, the answer is what is left of k, which no method of an iterator answers.
// Stays: that the closure may always be called is what every call of one asks, and no type says it.
fn seek<F: Fn(u32) -> bool>(acts: &[u32], k: usize, test: F) -> Result<usize, usize>
    requires few { (length acts.now ≤ 131072) × (k < 131072) }
    requires callable { F.IsAlwaysCallable test }
    ensures told { (q : ℕ → Bool) → ((a : ℕ) (b : Bool) → a < 4294967296 → F.post test a b → b ≡ q a) → result ≡ nth_place q 0 acts.now k }
    ensures within { InList (length acts.now) k result }
{
    let mut due = k;
    for (i, &a) in acts.iter().enumerate() {
        if test(a) {
            if due == 0 {
                return Ok(i);
            }
            due = due - 1;
        }
    }
    Err(due)
}

// Whether both sides make the move of a number together, and it shows: its label is in the mask, and in no mask above.
fn together(x: u64, mask: u64, a: u32) -> bool
    ensures { result ≡ paired x mask a }
{
    in_set(mask, a) && !in_set(x, a)
}

// The k-th pair of a number on the left with an equal one on the right, of those that both sides make together: both places, or what is
// left of k.
// Stays beside listing's put_pairs, which writes each pair: one function for both would be lent a closure that may write and may stop, and its contract would
// say of any closure what it did at each pair before.
fn seek_pair(
    x: u64,
    mask: u64,
    left: &[u32],
    right: &[u32],
    k: usize,
) -> Result<(usize, usize), usize>
    requires { (length left.now ≤ 131072) × (length right.now ≤ 131072) × (k < 131072) }
    ensures told { result ≡ nth_pair (paired x mask) 0 left.now right.now k }
    ensures within { InLists (length left.now) (length right.now) k result }
{
    let mut due = k;
    for (i, &a) in left.iter().enumerate() {
        if together(x, mask, a) {
            match seek(right, due, |c| a == c) {
                Ok(j) => return Ok((i, j)),
                Err(rest) => due = rest,
            }
        }
    }
    Err(due)
}

// The sides of move k, of those that show below masks with the labels of x, of a parallel with these numbers of moves on either
// side; or what is left of k.
pub fn locate(x: u64, mask: u64, left: &[u32], right: &[u32], k: usize) -> Located
    requires { (length left.now ≤ 131072) × (length right.now ≤ 131072) × (k < 131072) }
    ensures located { LocatedBy x mask left.now right.now k result }
    ensures within { InSides result }
{
    let y = join(x, mask);
    let due = match seek(left, k, |a| !in_set(y, a)) {
        Ok(i) => return Located::Left(i),
        Err(due) => due,
    };
    let due = match seek(right, due, |a| !in_set(y, a)) {
        Ok(j) => return Located::Right(j),
        Err(due) => due,
    };
    match seek_pair(x, mask, left, right, due) {
        Ok((i, j)) => Located::Both(i, j),
        Err(due) => Located::Passed(due),
    }
}
