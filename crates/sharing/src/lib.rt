// The term of a run held in few words over the start's unfolding, and moved (document 01, "Moves, in order"; "Memory and the history machine"). Parts that
// have not started are held by their places in the unfolding, so that a move neither passes over them nor copies them: that is what a run over many
// numbers costs. It serves terms without masks; whether the unfolding is one is asked once.
// Stays: that words are at most 65,535 is a clause of each function here, for the reason in successors (docs/DESIGN-PASS.md, "A struct for words").
#![tactic(auto)]

ghost use Rattle.std.specs.Prelude.{◌≤◌, ◌<◌, length};
ghost use Rattle.derivation.specs.Arrays.{SameArrays};
ghost use Rattle.sharing.specs.Changing.{Changed, Joined, PartChanged};
ghost use Rattle.sharing.specs.Stepping.{Stepped};

pub mod beginning;
pub mod expanding;
pub mod expansion;
pub mod finding;
pub mod masks;
pub mod moved;
pub mod seeking;
pub mod splicing;
pub mod writer;

use code_numbers::{DONE, PARALLEL, SEQUENCE};
use derivation::{Arrays, Scratch, Walked};
use finding::find;
use moved::Moved;
use splicing::splice;
use std::ops::Range;
use words::{front, last};
use writer::Writer;

// Stays: the term is the first n words of d, and n is a number beside it: it grows and shrinks within one array of a fixed size, since there is no heap. A
// struct of both would be lent, and each contract would have to say too that its array stays the same (`ghost_name`); and that n words are there, and word i
// is one of them, are facts of two values.

// The place that begins in word i of the first n gives way to the successor: of a part, of a part after done, or done where two that are done
// were in parallel.
fn change(
    u: &[u16],
    d: &mut [u16],
    n: usize,
    i: usize,
    path: &[u16],
    mid: &mut [u16],
) -> Option<Moved>
    requires { (n ≤ length d.old) × (i < n) × (length u.now ≤ 65503) × (length d.old ≤ 65535) × (length path.now ≤ 65535) × (length mid.old ≤ 65535) }
    ensures { Changed u.now d.old n i path.now mid.old d.new mid.new result }
{
    let w = d[i];
    match w as usize {
        SEQUENCE => {
            if n < i + 3 {
                return None;
            }
            let follows = d[i + 1];
            change_part(u, d, n, i..i + 3, follows, path, mid)
        }
        PARALLEL => join(d, n, i, mid),
        _ => change_part(u, d, n, i..i + 1, w, path, mid),
    }
}

// Done in the place of a parallel of done and done.
fn join(d: &mut [u16], n: usize, i: usize, mid: &mut [u16]) -> Option<Moved>
    requires { (n ≤ length d.old) × (i < n) × (length d.old ≤ 65535) × (length mid.old ≤ 65535) }
    ensures { Joined d.old n i mid.old d.new mid.new result }
{
    if n < i + 3 || mid.is_empty() {
        return None;
    }
    mid[0] = DONE as u16;
    // never None: d has more words, and mid has room for one and for what comes after
    let words = splice(d, n, i, i + 3, mid, 1)?;
    Some(Moved { words, action: 0 })
}

// The successor, along a path, of the part with this word, in the place of these words.
fn change_part(
    u: &[u16],
    d: &mut [u16],
    n: usize,
    place: Range<usize>,
    w: u16,
    path: &[u16],
    mid: &mut [u16],
) -> Option<Moved>
    requires { (n ≤ length d.old) × (place.start ≤ place.end) × (place.end ≤ n) × (length u.now ≤ 65503) × (length d.old ≤ 65535) × (length path.now ≤ 65535) × (length mid.old ≤ 65535) }
    ensures { PartChanged u.now d.old n place.start place.end w path.now mid.old d.new mid.new result }
{
    if w < 32 {
        return None;
    }
    let mut writer = Writer {
        out: mid,
        at: 0,
        action: 0,
    };
    writer.begin(last(u, w as usize - 32), path)?;
    let at = writer.at;
    let action = writer.action as u32;
    let words = splice(d, n, place.start, place.end, mid, at)?;
    Some(Moved { words, action })
}

// Move k of the shared term in the first n words of d, or None where there is no such move.
// Stays: that the arrays stay the same and keep their lengths is a fact of what they were and what they are then, which no field of a struct holds.
pub fn step(
    u: &[u16],
    d: &mut [u16],
    n: usize,
    m: &[u16],
    k: usize,
    scratch: &mut Scratch,
) -> Option<Moved>
    requires { (k < 65536) × (length u.now ≤ 65503) × (length d.old ≤ 65535) }
    ensures arrays { SameArrays scratch.old scratch.new }
    ensures stepped { Stepped u.now d.old n m.now k (length scratch.old.path.now) (length scratch.old.acts.now) (length scratch.old.mid.now) d.new result }
{
    if d.len() < n {
        return None;
    }
    // a name for the path: of a field that is lent into another struct the check would know no more afterwards than its length
    let path = &mut *scratch.path;
    let mut arrays = Arrays {
        store: m,
        path,
        acts: scratch.acts,
        k,
        at: 0,
        left: 0,
    };
    let r = find(u, front(d, n), &mut arrays);
    let left = arrays.left;
    let q = arrays.at;
    match r {
        Walked::Found => (),
        _ => return None,
    }
    if n < left || left == 0 || path.len() < q {
        return None;
    }
    change(u, d, n, n - left, &path[q..], scratch.mid)
}
