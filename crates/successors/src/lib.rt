// The successor of a move, built along its path within a part of the lent buffer (document 01, "Operations"; "Moves, in order"). What
// comes after the moving operand and stays is in the same order in the successor: so only the successor's beginning is
// written on the way, with the number of words at the end of the term that go on from there, and these are copied at once.
// Stays: words are a slice, with the clause that they are at most 65,535. A struct of the slice with that fact in a ghost field was proved in this file,
// and the library was the same byte for byte. It is no plainer: 13 clauses go, but each ensures says s.entry.words.now for s.now, and the file is 16 lines
// longer; with a model, by which a clause says s.now again, begin takes 352 bytes a level for 304 (docs/DESIGN-PASS.md, "A struct for words").
#![tactic(auto)]

ghost use Rattle.std.specs.Prelude.{◌≡◌, true, false, ◌+◌, ◌*◌, ◌≤◌, [], ◌∷◌, length, get_or};
ghost use Rattle.successors.specs.Building.{Building};
ghost use Rattle.successors.specs.Parts.{Whole, Unbuilt, Added, Closed, Beginning, Behind, After, with_right, Both};

use actions::{behind_action, code_at};
use code_numbers::{ACTION, CHOICE, DONE, GUARD, PARALLEL, SEQUENCE, STAR};
use conditions::behind_condition;
use listing::{skip, skip_row};
use paths::{BOTH_DONE, CHOOSE_LEFT, END, LEFT_MOVES, RIGHT_MOVES};
use unchanged::{behind_size, size_word, unchanged};
use words::{behind, first, last};
use writing::{put_word, put_words};

pub mod conditions;
pub mod unchanged;

// Whether there was room; the action's number, the words written, the words at the end of the term that go on from there, how many
// whole terms at the beginning of these are still the successor's, and what is left of the path.
// Stays: `ok` beside the numbers, in the room before `action`. An Option of the other five numbers takes 48 bytes where this takes 40, in each
// frame of a recursion as deep as the term.
#[derive(Clone, Copy, Default)]
pub struct Built {
    pub ok: bool,
    pub action: u32,
    pub words: usize,
    pub left: usize,
    pub due: usize,
    pub path_left: usize,
}

fn unbuilt() -> Built
    ensures { Unbuilt result }
{
    Built::default()
}

// ── words written ──

// A successor of one word, or the word that a successor begins with.
#[tactic(auto, using(crate::proofs::Made::wrote_whole, crate::proofs::Made::whole_lost))]
fn put_one(w: u16, action: u32, left: usize, onward: usize, out: &mut [u8]) -> Built
    ensures { Whole (w ∷ []) action left onward out.old out.new result }
{
    if put_word(w, out) {
        return Built {
            ok: true,
            action,
            words: 1,
            left,
            due: 0,
            path_left: onward,
        };
    }
    unbuilt()
}

// Head words as they are.
#[tactic(auto, using(crate::proofs::Made::wrote_whole, crate::proofs::Made::whole_lost))]
fn put_head(h: &[u16], out: &mut [u8]) -> Built
    ensures { Whole h.now 0 0 0 out.old out.new result }
{
    if put_words(h, out) {
        return Built {
            ok: true,
            words: h.len(),
            ..Built::default()
        };
    }
    unbuilt()
}

// Words after those that x wrote.
// Stays: that out has the words that x wrote is a fact of two values, which only this function and two more are handed together.
#[tactic(auto, using(crate::proofs::Made::added, crate::proofs::Made::added_lost))]
fn put_behind(x: Built, w: &[u16], out: &mut [u8]) -> Built
    requires { 2 * x.words ≤ length out.old }
    ensures { Added w.now x out.old out.new result }
{
    let k = 2 * x.words;
    if x.ok && put_words(w, &mut out[k..]) {
        return Built {
            words: x.words + w.len(),
            due: 0,
            ..x
        };
    }
    unbuilt()
}

// What x began, with the words of t that go on from there, but for the last e.
#[tactic(auto, using(crate::proofs::Made::closed_none))]
fn close(t: &[u16], x: Built, e: usize, out: &mut [u8]) -> Built
    requires { (x.left ≤ length t.now) × (2 * x.words ≤ length out.old) }
    ensures { Closed t.now x e out.old out.new result }
{
    let n = x.left;
    if n < e {
        return unbuilt();
    }
    let a = t.len() - n;
    let b = t.len() - e;
    let y = put_behind(x, &t[a..b], out);
    Built {
        left: e,
        due: 0,
        ..y
    }
}

// ── the beginning of the successor ──

// Stays: that s begins with a code is a fact of its own for each function of a code: a type for it would be one for each code. So it is with a path's decision.
// Stays: s, path and out are three parameters. A call for an operand is handed another s, most another path, and those that follow words written another out,
// so that a struct of them would be made anew there, at every level; and n, how many words of s stay, is one word where a second slice would be two.

// After the words that x wrote.
#[cycle(building)]
fn begin_behind(x: Built, u: &[u16], path: &[u16], out: &mut [u8]) -> Built
    requires { (length u.now ≤ 65535) × (2 * x.words ≤ length out.old) }
    ensures { Behind x u.now path.now out.old out.new result }
{
    if !x.ok {
        return unbuilt();
    }
    let k = 2 * x.words;
    let y = begin(u, path, &mut out[k..]);
    Built {
        words: x.words + y.words,
        ..y
    }
}

// After the first n words of s, as they are.
#[cycle(building)]
fn begin_after(s: &[u16], n: usize, path: &[u16], out: &mut [u8]) -> Built
    requires { (length s.now ≤ 65535) × (n ≤ length s.now) }
    ensures { After s.now n path.now out.old out.new result }
{
    let x = put_head(&s[..n], out);
    begin_behind(x, &s[n..], path, out)
}

// What the left operand's successor began, and the right operand, which comes after it and stays.
fn with_right(x: Built) -> Built
    requires { x.due ≤ 65535 }
    ensures { result ≡ with_right x }
{
    Built {
        due: x.due + 1,
        ..x
    }
}

// Of a sequence whose left side is done, the right side's successor.
#[cycle(building)]
fn begin_sequence(s: &[u16], path: &[u16], out: &mut [u8]) -> Built
    requires { (length s.now ≤ 65535) × (get_or s.now 0 0 ≡ 22) }
    ensures { Beginning s.now path.now out.old out.new result }
{
    let t = behind(s);
    if first(t) == DONE {
        return begin(behind(t), path, out);
    }
    with_right(begin_after(s, 1, path, out))
}

#[cycle(building)]
fn begin_choice(s: &[u16], path: &[u16], out: &mut [u8]) -> Built
    requires { (length s.now ≤ 65535) × (get_or s.now 0 0 ≡ 23) }
    ensures { Beginning s.now path.now out.old out.new result }
{
    if first(path) == CHOOSE_LEFT {
        return begin_chosen(s, path, out);
    }
    let n = 1 + size_word(path);
    if s.len() < n {
        return unbuilt();
    }
    begin(&s[n..], behind_size(path), out)
}

// The left operand's successor without the right operand, which comes after it and is passed over. Where the left operand ends is said by
// the terms that are left of it: to scan the whole of it anew would cost the square of the depth of choices within choices.
#[tactic(auto, using(words::specs::Laws::Checking::last_len, words::specs::Laws::Checking::behind_len))]
#[cycle(building)]
fn begin_chosen(s: &[u16], path: &[u16], out: &mut [u8]) -> Built
    requires { (length s.now ≤ 65535) × (get_or s.now 0 0 ≡ 23) × (get_or path.now 0 0 ≡ 0) }
    ensures { Beginning s.now path.now out.old out.new result }
{
    let t = behind(s);
    let x = begin(t, behind(path), out);
    let e = skip_row(last(t, x.left), x.due);
    let z = close(t, x, e, out);
    let left = skip(last(t, e));
    Built { left, due: 0, ..z }
}

#[cycle(building)]
fn begin_star(s: &[u16], path: &[u16], out: &mut [u8]) -> Built
    requires { (length s.now ≤ 65535) × (get_or s.now 0 0 ≡ 24) }
    ensures { Beginning s.now path.now out.old out.new result }
{
    if first(path) == END {
        return put_one(DONE as u16, 0, skip(behind(s)), behind(path).len(), out);
    }
    begin_round(s, path, out)
}

// A star's round: the operand's successor, and then the star again.
#[tactic(auto, using(words::specs::Laws::Checking::last_len, words::specs::Laws::Checking::behind_len))]
#[cycle(building)]
fn begin_round(s: &[u16], path: &[u16], out: &mut [u8]) -> Built
    requires { (length s.now ≤ 65535) × (get_or s.now 0 0 ≡ 24) × (get_or path.now 0 0 ≡ 0 → ⊥) }
    ensures { Beginning s.now path.now out.old out.new result }
{
    let t = behind(s);
    let h = put_one(SEQUENCE as u16, 0, 0, 0, out);
    let x = begin_behind(h, t, behind(path), out);
    let e = skip_row(last(t, x.left), x.due);
    let z = close(t, x, e, out);
    let n = s.len() - e;
    put_behind(z, &s[..n], out)
}

#[tactic(auto, using(words::specs::Laws::Checking::last_len))]
#[cycle(building)]
fn begin_parallel(s: &[u16], path: &[u16], out: &mut [u8]) -> Built
    requires { (length s.now ≤ 65535) × (get_or s.now 0 0 ≡ 25) }
    ensures { Beginning s.now path.now out.old out.new result }
{
    if s.len() < 5 {
        return unbuilt();
    }
    match first(path) {
        BOTH_DONE => {
            let n = skip(&s[5..]);
            put_one(DONE as u16, 0, skip(last(s, n)), behind(path).len(), out)
        }
        LEFT_MOVES => with_right(begin_after(s, 5, behind(path), out)),
        _ => begin_right(s, path, out),
    }
}

// The right operand moves, alone or together with the left one. Out of line, since within begin it takes each level of the recursion 112 bytes more
// stack, 320 for 208; with it a level here has 352.
#[cycle(building)]
#[inline(never)]
fn begin_right(s: &[u16], path: &[u16], out: &mut [u8]) -> Built
    requires { (length s.now ≤ 65535) × (get_or s.now 0 0 ≡ 25) × (5 ≤ length s.now) × (get_or path.now 0 0 ≡ 0 → ⊥) × (get_or path.now 0 0 ≡ 1 → ⊥) }
    ensures { Beginning s.now path.now out.old out.new result }
{
    let n = 5 + size_word(path);
    if s.len() < n {
        return unbuilt();
    }
    if first(path) == RIGHT_MOVES {
        return begin_after(s, n, behind_size(path), out);
    }
    begin_both(s, n, behind_size(path), out)
}

// The left operand's successor is closed before the right one's begins after it.
#[cycle(building)]
fn begin_both(s: &[u16], n: usize, path: &[u16], out: &mut [u8]) -> Built
    requires { (length s.now ≤ 65535) × (5 ≤ n) × (n ≤ length s.now) }
    ensures { Both s.now n path.now out.old out.new result }
{
    let x = begin_after(s, 5, path, out);
    let z = close(s, x, s.len() - n, out);
    let y = begin_behind(z, &s[n..], last(path, x.path_left), out);
    Built {
        action: x.action,
        ..y
    }
}

// The successor is without the guard.
#[tactic(auto, using(words::specs::Laws::Checking::last_len, words::specs::Laws::Checking::behind_len))]
#[cycle(building)]
fn begin_guard(s: &[u16], path: &[u16], out: &mut [u8]) -> Built
    requires { (length s.now ≤ 65535) × (get_or s.now 0 0 ≡ 26) }
    ensures { Beginning s.now path.now out.old out.new result }
{
    let t = behind(s);
    begin(last(t, behind_condition(t)), path, out)
}

fn begin_action(s: &[u16], path: &[u16], out: &mut [u8]) -> Built
    requires { (length s.now ≤ 65535) × (get_or s.now 0 0 ≡ 21) }
    ensures { Beginning s.now path.now out.old out.new result }
{
    let t = behind(s);
    put_one(DONE as u16, code_at(t), behind_action(t), path.len(), out)
}

#[cycle(building)]
fn begin(s: &[u16], path: &[u16], out: &mut [u8]) -> Built
    requires { length s.now ≤ 65535 }
    ensures { Beginning s.now path.now out.old out.new result }
{
    match first(s) {
        ACTION => begin_action(s, path, out),
        SEQUENCE => begin_sequence(s, path, out),
        CHOICE => begin_choice(s, path, out),
        STAR => begin_star(s, path, out),
        PARALLEL => begin_parallel(s, path, out),
        GUARD => begin_guard(s, path, out),
        _ => put_one(DONE as u16, 0, behind(s).len(), path.len(), out),
    }
}

// ── the whole ──

// Of a whole term, which nothing follows. The words at its front that stay are copied at once, and the beginning is made after them: how many
// terms are due is not counted of those passed there, nor asked, since all words that are left belong to the successor.
pub fn build(s: &[u16], path: &[u16], out: &mut [u8]) -> Built
    requires { length s.now ≤ 65535 }
    ensures { Building s.now path.now out.old out.new result }
{
    let stay = unchanged(s, path);
    let x = begin_after(s, stay.words, &path[stay.path..], out);
    close(s, x, 0, out)
}
