// The numbers of a parallel's moves, made of those of both sides in the lent array (document 01, "Moves, in order": left's outside the mask,
// right's likewise, then pairs of equal actions in the mask).
ghost use Rattle.std.specs.Prelude.{Bool, ℕ, ◌+◌, ◌-◌, ◌≤◌, ◌<◌, ◌≡◌, [], ◌∷◌, length, take};
ghost use Rattle.std.proofs.Math.Seq.{slice};
ghost use Rattle.actions.specs.Sets.{in_set};
ghost use Rattle.listing.specs.Combining.{outside, pairs, combined, Combined};

use actions::in_set;

// The numbers written so far into a lent array.
#[derive(Drop)]
struct Out<'a> {
    numbers: &'a mut [u32],
    // How many are written.
    at: usize,
    ghost room: { at ≤ length numbers.now },
}

// Each of these writes numbers after those that are written already, or answers None where there is no room.
impl Out<'_> {
    ghost use Rattle.listing.specs.Putting.{Puts};

    // One number.
    fn put(&mut self, a: u32) -> Option<()>
        ensures { Puts (a ∷ []) self.old self.new result }
    {
        let at = self.at;
        if self.numbers.len() <= at {
            return None;
        }
        self.numbers[at] = a;
        self.at = at + 1;
        Some(())
    }

    // Those of the numbers that a test does not pass over.
    // Stays `continue`, since with the call of `put` within an `if` the loop was measured, as a function of the array and a place, to take 1.6 times as long
    // for a mask's test, a seventh longer for an equal number's.
    // Stays: that the closure may always be called is what every call of one asks, and no type says it.
    fn put_outside<F: Fn(u32) -> bool>(&mut self, test: F, from: &[u32]) -> Option<()>
        requires callable { F.IsAlwaysCallable test }
        ensures { (q : ℕ → Bool) → ((a : ℕ) (b : Bool) → a < 4294967296 → F.post test a b → b ≡ q a) → Puts (outside q from.now) self.old self.new result }
    {
        for a in from {
            if test(*a) {
                continue;
            }
            self.put(*a)?;
        }
        Some(())
    }

    // The pairs of a number on the left with an equal one on the right, of those in the mask.
    fn put_pairs(&mut self, mask: u64, left: &[u32], right: &[u32]) -> Option<()>
        ensures { Puts (pairs (in_set mask) left.now right.now) self.old self.new result }
    {
        for x in left {
            if in_set(mask, *x) {
                let a = *x;
                self.put_outside(|b| b != a, right)?;
            }
        }
        Some(())
    }
}

// Copies the numbers from b to e to the front.
// Stays number by number: copy_within calls memmove, and the library promises C hosts to call memcpy and memset only (host/eb3.h, Linking).
// Stays with b and e: what is read and what is written are parts of one array that may overlap, so they are no two slices.
// Stays beside copy_cells of cells: made generic, that would say item by item what was copied (`Copied`), and a law would have to make of it the list that
// this says.
// Stays: that the array keeps its length is a fact of what it was and what it is then, which no field of a struct holds.
fn shift(b: usize, e: usize, acts: &mut [u32])
    requires { (b ≤ e) × (e ≤ length acts.old) }
    ensures { (length acts.new ≡ length acts.old) × (take (e - b) acts.new ≡ slice b e acts.old) }
{
    for i in 0..e - b {
        acts[i] = acts[b + i];
    }
}

// Of the n numbers at the front and the k after them, those of the parallel, at the front: how many, or None where there was no room. They are made
// after both lists, which are read to the end.
// Stays with two counts: both lists are parts of the array at whose front their moves end, so they are no two slices beside it.
pub fn combine(mask: u64, n: usize, k: usize, acts: &mut [u32]) -> Option<usize>
    requires { n + k ≤ length acts.old }
    ensures { Combined (combined (in_set mask) (slice 0 n acts.old) (slice n (n + k) acts.old)) (n + k) acts.old acts.new result }
{
    let b = n + k;
    let (both, numbers) = acts.split_at_mut(b);
    let (left, right) = both.split_at(n);
    let mut out = Out { numbers, at: 0 };
    out.put_outside(|a| in_set(mask, a), left)?;
    out.put_outside(|a| in_set(mask, a), right)?;
    out.put_pairs(mask, left, right)?;
    let e = out.at;
    shift(b, b + e, acts);
    Some(e)
}
