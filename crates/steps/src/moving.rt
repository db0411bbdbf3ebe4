// Move k of a running term: the path of the move is found, then the successor built along it in a lent buffer (document 01, "Moves, in
// order"; "Operations"). The path has at most as many words as the term; the numbers that finding it takes are tried as
// in counting.
// Stays: that words are at most 65,535 is a clause of each function here, for the reason in successors (docs/DESIGN-PASS.md, "A struct for words").
ghost use Rattle.std.specs.Prelude.{◌≡◌, ℕ, ◌≤◌, ◌<◌, length};
ghost use Rattle.derivation.specs.Arrays.{SameArrays};
ghost use Rattle.derivation.specs.Derived.{Derived};
ghost use Rattle.steps.specs.Taking.{place_in, PathFound, MoveTaken};

use derivation::{Derivation, Scratch, derive};
use successors::build;

/// A move that was taken.
#[derive(Clone, Copy)]
pub struct Taken {
    /// The number of its action.
    pub action: u32,
    /// How many words its successor has.
    pub size: usize,
}

// ── the path ──

// Move k's path sought with room for N numbers.
// Stays a function that only makes an array and asks: not put into its caller, so that a call with few numbers does not pay for a frame with many.
// Stays, here and in find_path: the words, the store, k, the path and the numbers are parameters, with their bounds as clauses: they go to `derivation::derive`
// at once, which is public and takes them so. The bound of N is of a const parameter, which each call gives as a number.
#[inline(never)]
fn path_in<const N: usize>(s: &[u16], m: &[u16], k: usize, path: &mut [u16]) -> Derivation
    requires { (length s.now ≤ 65535) × (k < 65536) × (length path.old ≤ 65535) × (N ≤ 131072) }
    ensures kept { length path.new ≡ length path.old }
    ensures derived { Derived s.now m.now k path.old path.new N result }
{
    let mut acts = [0u32; N];
    let r = derive(s, m, k, path, &mut acts);
    r
}

// The place in an answer of a derivation, if there is one.
fn place(r: Derivation) -> Option<usize>
    ensures { result ≡ place_in r }
{
    match r {
        Derivation::At(at) => Some(at),
        _ => None,
    }
}

// The place in a lent array where move k's path begins; it goes to the array's end. The lent numbers are tried first.
// Stays beside of_moves (counting.rt): that one hands the listed moves to a closure and tries arrays of its own, and this asks a derivation and begins with a
// lent array; a size is a const parameter, which a closure does not have, so no function of the three tries could be handed what is tried.
fn find_path(s: &[u16], m: &[u16], k: usize, path: &mut [u16], acts: &mut [u32]) -> Option<usize>
    requires { (length s.now ≤ 65535) × (k < 65536) × (length path.old ≤ 65535) × (length acts.old ≤ 131072) }
    ensures { PathFound s.now m.now k path.old path.new result }
{
    let few = derive(s, m, k, path, acts);
    match few {
        Derivation::NoRoom => (),
        _ => return place(few),
    }
    let more = path_in::<4096>(s, m, k, path);
    match more {
        Derivation::NoRoom => (),
        _ => return place(more),
    }
    // within the limits there is always room for all of them
    let most = path_in::<131072>(s, m, k, path);
    place(most)
}

// ── the move ──

// Move k, its successor in a buffer that has room for it. The arrays for the path and for the numbers that finding it takes are lent, so that a
// run clears them once and not at every move: what they hold before does not count. The third array of a Scratch is not used here. No term within the
// limits has a move 65536.
// Stays: that the arrays stay the same and keep their lengths is a fact of what they were and what they are then, which no field of a struct holds.
pub fn take_move_in(
    s: &[u16],
    m: &[u16],
    k: usize,
    scratch: &mut Scratch,
    out: &mut [u8],
) -> Option<Taken>
    requires { length s.now ≤ 65535 }
    ensures arrays { SameArrays scratch.old scratch.new }
    ensures taken { MoveTaken s.now m.now k (length scratch.old.path.now) out.old out.new result }
{
    if 65535 < k {
        return None;
    }
    let at = find_path(s, m, k, scratch.path, scratch.acts)?;
    let b = build(s, &scratch.path[at..], out);
    Some(Taken {
        action: b.action,
        size: b.words,
    })
}

// The same with arrays of its own, for a path of N words; the third is empty. Not put into its caller, so that a short term does not pay for a frame with
// a long path.
// Stays: it only makes arrays, of a size that its caller picks, since there is no heap.
#[inline(never)]
fn take_sized<const N: usize>(s: &[u16], m: &[u16], k: usize, out: &mut [u8]) -> Option<Taken>
    requires { (length s.now ≤ 65535) × (N ≤ 65535) }
    ensures { MoveTaken s.now m.now k N out.old out.new result }
{
    let mut path = [0u16; N];
    let mut acts = [0u32; 256];
    let mut scratch = Scratch {
        path: &mut path,
        acts: &mut acts,
        mid: &mut [],
    };
    let r = take_move_in(s, m, k, &mut scratch, out);
    r
}

// With an array for a path of 256 words, of 1,024, or of 8,192, the most that there may be: little is cleared for a short term.
pub fn take_move(s: &[u16], m: &[u16], k: usize, out: &mut [u8]) -> Option<Taken>
    requires { length s.now ≤ 65535 }
    ensures { MoveTaken s.now m.now k 8192 out.old out.new result }
{
    if s.len() <= 256 {
        return take_sized::<256>(s, m, k, out);
    }
    if s.len() <= 1024 {
        return take_sized::<1024>(s, m, k, out);
    }
    take_sized::<8192>(s, m, k, out)
}
