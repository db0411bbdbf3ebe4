// A shared term spelled out whole (document 01, "Operations": Run writes the last term).
// Stays: that words are at most 65,535, and so those left, is a clause, for the reason in successors (docs/DESIGN-PASS.md, "A struct for words").
ghost use Rattle.std.specs.Prelude.{◌≡◌, [], ◌∷◌, ◌+◌, ◌≤◌, ◌<◌, length};
ghost use Rattle.sharing.specs.Splicing.{Expanded, PartExpanded, DoneExpanded};
ghost use Rattle.sharing.specs.Expanding.{Kept, Into, numbers};

use super::expansion::{Expansion, Extent};
use super::splicing::copy_words;
use code_numbers::{DONE, PARALLEL, SEQUENCE};
use listing::skip;
use words::{behind, first, last};

// The term at the front of s, written into an array from a place on, or None where there is no room.
// Stays with out and at side by side: it is public, and what is public keeps its promise, which it gives for any place, in the array or not.
pub fn expand(u: &[u16], s: &[u16], out: &mut [u16], at: usize) -> Option<Extent>
    requires { (length u.now ≤ 65503) × (length s.now ≤ 65535) × (length out.old ≤ 65535) }
    ensures { Expanded s.now u.now at out.old out.new (numbers result) }
{
    if out.len() < at {
        return None;
    }
    let mut expansion = Expansion {
        unfolding: u,
        out,
        at,
    };
    let left = expansion.expand(s)?;
    let end = expansion.at;
    Some(Extent { left, end })
}

// Stays: that the array stays the same (`Kept`) is a fact of what it was and what it is then, which no field of a struct holds.
impl Expansion<'_> {
    // The part with this word, from its place in the unfolding; `left` words are left after it, which is the answer.
    fn expand_part(&mut self, w: usize, left: usize) -> Option<usize>
        requires { left ≤ 65535 }
        ensures kept { Kept self.old self.new result }
        ensures expanded { Into (PartExpanded self.old.unfolding.now w left) self.old self.new result }
    {
        if w < 32 {
            return None;
        }
        let e = last(self.unfolding, w - 32);
        let n = e.len() - skip(e);
        let at = self.at;
        if self.out.len() - at < n {
            return None;
        }
        copy_words(&e[..n], self.out, at);
        self.at = at + n;
        Some(left)
    }

    fn expand_done(&mut self, left: usize) -> Option<usize>
        requires { left ≤ 65535 }
        ensures kept { Kept self.old self.new result }
        ensures expanded { Into (DoneExpanded left) self.old self.new result }
    {
        let at = self.at;
        if self.out.len() <= at {
            return None;
        }
        self.out[at] = DONE as u16;
        self.at = at + 1;
        Some(left)
    }

    // How many words of s are left after the term, or None where there is no room.
    #[cycle(expanding)]
    fn expand(&mut self, s: &[u16]) -> Option<usize>
        requires { length s.now ≤ 65535 }
        ensures kept { Kept self.old self.new result }
        ensures expanded { Into (Expanded s.now self.old.unfolding.now) self.old self.new result }
    {
        let w = first(s);
        let t = behind(s);
        match w {
            SEQUENCE => self.expand_then(t),
            PARALLEL => self.expand_beside(t),
            DONE => self.expand_done(t.len()),
            _ => self.expand_part(w, t.len()),
        }
    }

    // What is followed comes after the place of what follows.
    #[cycle(expanding)]
    fn expand_then(&mut self, t: &[u16]) -> Option<usize>
        requires { length t.now < 65535 }
        ensures kept { Kept self.old self.new result }
        ensures expanded { Into (Expanded (22 ∷ t.now) self.old.unfolding.now) self.old self.new result }
    {
        let at = self.at;
        if self.out.len() <= at {
            return None;
        }
        self.out[at] = SEQUENCE as u16;
        self.at = at + 1;
        let left = self.expand(behind(t))?;
        self.expand_part(first(t), left)
    }

    #[cycle(expanding)]
    fn expand_beside(&mut self, t: &[u16]) -> Option<usize>
        requires { length t.now < 65535 }
        ensures kept { Kept self.old self.new result }
        ensures expanded { Into (Expanded (25 ∷ t.now) self.old.unfolding.now) self.old self.new result }
    {
        let at = self.at;
        if self.out.len() - at < 5 {
            return None;
        }
        copy_words(&[PARALLEL as u16, 0, 0, 0, 0], self.out, at);
        self.at = at + 5;
        let left = self.expand(t)?;
        self.expand(last(t, left))
    }
}
