// The successor of a part of the unfolding along a path (document 01, "Moves, in order"). Only what has started is spelled out: an operand that moves, the code
// before it, done in the place of an action. What is beside or after it stays in the unfolding, and its place is written.
// Stays: that words are at most 65,535 is a clause of each function here, for the reason in successors (docs/DESIGN-PASS.md, "A struct for words").
// Stays beside successors' functions of the same codes: those write words as they are and say how many go on, these write places and end nothing. One
// function of each code would be handed what is to be written, in a cycle of calls, and the check states no theorem of such a cycle with a closure in it.
ghost use Rattle.std.specs.Prelude.{◌≡◌, cond, ◌+◌, ◌≤◌, ◌<◌, eqb, length, get_or};
ghost use Rattle.sharing.specs.Beginning.{Beginning, LeftBegun, BothBegun, ActionNumber, EndPut};
ghost use Rattle.sharing.specs.Writing.{Kept, Into};

use super::writer::Writer;
use actions::code_at;
use code_numbers::{ACTION, CHOICE, DONE, GUARD, PARALLEL, SEQUENCE, STAR};
use listing::skip;
use paths::{BOTH_DONE, CHOOSE_LEFT, END, LEFT_MOVES, RIGHT_MOVES};
use successors::conditions::behind_condition;
use successors::unchanged::{behind_size, size_word};
use words::{behind, first, last};

// The word for the part that s begins with; done is spelled out.
// Stays: one word says either a code, below 32, or from 32 on the place of a part. The term is held in an array of words, in which an enum would take two.
pub fn part_word(s: &[u16]) -> u16
    requires { length s.now ≤ 65503 }
    ensures { result ≡ cond (eqb (get_or s.now 0 0) 30) 30 (32 + length s.now) }
{
    if first(s) == DONE {
        return DONE as u16;
    }
    (32 + s.len()) as u16
}

// The number of the action after its code. It is small in every running term.
fn action_number(t: &[u16]) -> usize
    ensures { (result < 1048576) × ActionNumber t.now result }
{
    let a = code_at(t) as usize;
    if a < 1048576 {
        return a;
    }
    0
}

// Stays: that s begins with a code is a fact of its own for each function of a code: a type for it would be one for each code.
// Stays: s and path are two parameters: a call for an operand is handed another s, with the same path or another, so a struct of both would be made anew there.
// Stays: that the array stays the same (`Kept`), and what decision a path does not begin with, which the test before the call shows, are facts that no field
// of a struct holds.
// Stays: that s has at most 65,503 words is a clause, here and in the other files of this crate: 32 and a number of words must make a word (part_word). A
// struct for it would cost what one for words costs (docs/DESIGN-PASS.md, "A struct for words").
impl Writer<'_> {
    // Done, with an action's number; the words left of the path are the answer.
    // Stays written out, here and below: where two words are put, one test says that there is room for both; a function for one word would test at each.
    fn put_done(&mut self, left: usize, action: usize) -> Option<usize>
        requires { (left ≤ 65535) × (action < 1048576) }
        ensures kept { Kept self.old self.new result }
        ensures put { Into (EndPut left action) self.old self.new result }
    {
        let at = self.at;
        if self.out.len() <= at {
            return None;
        }
        self.out[at] = DONE as u16;
        self.at = at + 1;
        self.action = action;
        Some(left)
    }

    // The successor, from the place on: how many words of the path are left, or None where there was no room.
    #[cycle(beginning)]
    pub fn begin(&mut self, s: &[u16], path: &[u16]) -> Option<usize>
        requires { (length s.now ≤ 65503) × (length path.now ≤ 65535) }
        ensures kept { Kept self.old self.new result }
        ensures begun { Into (Beginning s.now path.now) self.old self.new result }
    {
        match first(s) {
            ACTION => self.put_done(path.len(), action_number(behind(s))),
            SEQUENCE => self.begin_sequence(s, path),
            CHOICE => self.begin_choice(s, path),
            STAR => self.begin_star(s, path),
            PARALLEL => self.begin_parallel(s, path),
            GUARD => self.begin_guard(s, path),
            _ => self.put_done(path.len(), 0),
        }
    }

    // The place of what follows is written before what it follows.
    #[cycle(beginning)]
    fn begin_sequence(&mut self, s: &[u16], path: &[u16]) -> Option<usize>
        requires { (length s.now ≤ 65503) × (get_or s.now 0 0 ≡ 22) × (length path.now ≤ 65535) }
        ensures kept { Kept self.old self.new result }
        ensures begun { Into (Beginning s.now path.now) self.old self.new result }
    {
        let t = behind(s);
        if first(t) == DONE {
            return self.begin(behind(t), path);
        }
        let at = self.at;
        if self.out.len() < at + 2 {
            return None;
        }
        self.out[at] = SEQUENCE as u16;
        self.out[at + 1] = (32 + skip(t)) as u16;
        self.at = at + 2;
        self.begin(t, path)
    }

    #[cycle(beginning)]
    fn begin_choice(&mut self, s: &[u16], path: &[u16]) -> Option<usize>
        requires { (length s.now ≤ 65503) × (get_or s.now 0 0 ≡ 23) × (length path.now ≤ 65535) }
        ensures kept { Kept self.old self.new result }
        ensures begun { Into (Beginning s.now path.now) self.old self.new result }
    {
        let t = behind(s);
        if first(path) == CHOOSE_LEFT {
            return self.begin(t, behind(path));
        }
        let n = size_word(path);
        if t.len() < n {
            return None;
        }
        self.begin(&t[n..], behind_size(path))
    }

    // A round is what the operand becomes, and then the star again, where it is.
    #[cycle(beginning)]
    fn begin_star(&mut self, s: &[u16], path: &[u16]) -> Option<usize>
        requires { (length s.now ≤ 65503) × (get_or s.now 0 0 ≡ 24) × (length path.now ≤ 65535) }
        ensures kept { Kept self.old self.new result }
        ensures begun { Into (Beginning s.now path.now) self.old self.new result }
    {
        if first(path) == END {
            return self.put_done(behind(path).len(), 0);
        }
        let at = self.at;
        if self.out.len() < at + 2 {
            return None;
        }
        self.out[at] = SEQUENCE as u16;
        self.out[at + 1] = (32 + s.len()) as u16;
        self.at = at + 2;
        self.begin(behind(s), behind(path))
    }

    // What is guarded goes on without the guard.
    #[cycle(beginning)]
    fn begin_guard(&mut self, s: &[u16], path: &[u16]) -> Option<usize>
        requires { (length s.now ≤ 65503) × (get_or s.now 0 0 ≡ 26) × (length path.now ≤ 65535) }
        ensures kept { Kept self.old self.new result }
        ensures begun { Into (Beginning s.now path.now) self.old self.new result }
    {
        let t = behind(s);
        self.begin(last(t, behind_condition(t)), path)
    }

    #[cycle(beginning)]
    fn begin_parallel(&mut self, s: &[u16], path: &[u16]) -> Option<usize>
        requires { (length s.now ≤ 65503) × (get_or s.now 0 0 ≡ 25) × (length path.now ≤ 65535) }
        ensures kept { Kept self.old self.new result }
        ensures begun { Into (Beginning s.now path.now) self.old self.new result }
    {
        let d = first(path);
        if d == BOTH_DONE {
            return self.put_done(behind(path).len(), 0);
        }
        let at = self.at;
        if s.len() < 5 || self.out.len() < at + 2 {
            return None;
        }
        if d == LEFT_MOVES {
            self.out[at] = PARALLEL as u16;
            self.at = at + 1;
            return self.begin_left(&s[5..], behind(path));
        }
        self.begin_right(s, path)
    }

    // The left operand moves: after what it becomes, the place of the right one.
    #[cycle(beginning)]
    fn begin_left(&mut self, e: &[u16], path: &[u16]) -> Option<usize>
        requires { (length e.now ≤ 65503) × (length path.now ≤ 65535) }
        ensures kept { Kept self.old self.new result }
        ensures begun { Into (LeftBegun e.now path.now) self.old self.new result }
    {
        let left = self.begin(e, path)?;
        let at = self.at;
        if self.out.len() <= at {
            return None;
        }
        self.out[at] = part_word(last(e, skip(e)));
        self.at = at + 1;
        Some(left)
    }

    // The right operand moves, alone after the place of the left one, or together with it.
    #[cycle(beginning)]
    fn begin_right(&mut self, s: &[u16], path: &[u16]) -> Option<usize>
        requires words { (length s.now ≤ 65503) × (length path.now ≤ 65535) }
        requires parallel { (get_or s.now 0 0 ≡ 25) × (5 ≤ length s.now) }
        requires right_moves { (get_or path.now 0 0 ≡ 0 → ⊥) × (get_or path.now 0 0 ≡ 1 → ⊥) }
        requires room { self.old.at + 2 ≤ length self.old.out.now }
        ensures kept { Kept self.old self.new result }
        ensures begun { Into (Beginning s.now path.now) self.old self.new result }
    {
        let e = &s[5..];
        let n = size_word(path);
        if e.len() < n {
            return None;
        }
        let at = self.at;
        self.out[at] = PARALLEL as u16;
        if first(path) == RIGHT_MOVES {
            self.out[at + 1] = part_word(e);
            self.at = at + 2;
            return self.begin(&e[n..], behind_size(path));
        }
        self.at = at + 1;
        self.begin_both(e, n, behind_size(path))
    }

    // Both move, the left one's path first; the action is the left one's.
    // Stays: n, how many words of e are the left operand's, is one number where a second slice would be two.
    #[cycle(beginning)]
    fn begin_both(&mut self, e: &[u16], n: usize, path: &[u16]) -> Option<usize>
        requires { (length e.now ≤ 65503) × (n ≤ length e.now) × (length path.now ≤ 65535) }
        ensures kept { Kept self.old self.new result }
        ensures begun { Into (BothBegun e.now n path.now) self.old self.new result }
    {
        let left = self.begin(e, path)?;
        let action = self.action;
        let right = self.begin(&e[n..], last(path, left))?;
        self.action = action;
        Some(right)
    }
}
