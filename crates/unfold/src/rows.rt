// What stands in an action and in a guard, its variables become constants: arguments, and a condition, which is a row of expressions (document 01,
// "Unfolding, size and breadth").
ghost use Rattle.std.specs.Prelude.{◌≡◌, ◌*◌, ◌≤◌, length, IfSome};
ghost use Rattle.unfold.specs.Puts.{Puts, Heads};
ghost use Rattle.unfold.specs.Instantiation.{Instantiates, front_words};
ghost use Rattle.unfold.specs.Saying.{Constants, Performs, Conditions};

use super::scope::Scope;
use super::values::argument;
use super::writer::Writer;
use code_numbers::{ACTION, CONSTANT, GUARD, VARIABLE};
use codes::{EDITION_1, code_at, operands_after, words_after};
use tables::label_row;
use words::{behind, first, last};

// The front of an expression; a variable's becomes a constant's.
fn put_front(front: &[u16], vars: &[u16], out: &mut Writer) -> Option<()>
    requires { 1 ≤ length front.now }
    ensures { Heads (front_words vars.now front.now (length front.now)) out.old out.new result }
{
    let c = front[0];
    if c as usize == VARIABLE {
        let v = [vars.get(first(behind(front))).copied().unwrap_or(0)];
        return out.head(CONSTANT as u16, &v);
    }
    out.head(c, &front[1..])
}

// `count` expressions in a row, their variables become constants.
// Stays `while`: no index is counted, and a code says how many expressions follow it.
// Stays, here and below: scope, n and out are three parameters, as in lib.rt.
pub fn put_row(scope: &Scope, n: usize, count: usize, out: &mut Writer) -> Option<usize>
    requires { count ≤ 2305843009213693952 }
    ensures puts { Puts (Instantiates scope.now.words.now scope.now.context.variables.now count n) out.old out.new result }
    ensures left { IfSome result (λ left. left ≤ n) }
{
    let mut s = last(scope.words, n);
    let vars = scope.context.variables;
    let mut k = count;
    while 0 < k {
        let c = code_at(s, 0)?;
        let m = 1 + words_after(c, EDITION_1);
        // Stays a case of its own: so the next place is foreseen and need not wait for the table. Without it a Start takes up to 1.7 times the time, measured.
        if m == 1 {
            put_front(&s[..1], vars, out)?;
            k = k - 1 + operands_after(c);
            s = &s[1..];
            continue;
        }
        // No front of an expression has more than two words. Stays though the next test is enough: without it they are copied by a loop, and a
        // Start takes up to 1.04 times the instructions.
        if 2 < m {
            return None;
        }
        if s.len() < m {
            return None;
        }
        put_front(&s[..m], vars, out)?;
        k = k - 1 + operands_after(c);
        s = &s[m..];
    }
    Some(s.len())
}

// The first `count` arguments of those at the front of s, a constant for each.
// Stays beside put_row: an argument is a variable or a constant, so that it needs no table of codes. With arguments put as a row a Start takes up to 1.11
// times the instructions, measured.
fn put_arguments(s: &[u16], vars: &[u16], count: usize, out: &mut Writer) -> Option<usize>
    requires { count ≤ 2305843009213693952 }
    ensures { Puts (Constants vars.now s.now count) out.old out.new result }
{
    let m = 2 * count;
    if s.len() < m {
        return None;
    }
    for j in 0..count {
        let v = [argument(s, vars, j)];
        out.head(CONSTANT as u16, &v)?;
    }
    Some(s.len() - m)
}

// An action: its label, and an argument for each of the label's parameters.
pub fn action(scope: &Scope, n: usize, out: &mut Writer) -> Option<usize>
    ensures { Puts (Performs scope.now.words.now scope.now.context.tables.now n scope.now.context.variables.now) out.old out.new result }
{
    let s = last(scope.words, n);
    if s.is_empty() {
        return None;
    }
    out.head(ACTION as u16, &s[..1])?;
    let k = label_row(scope.context.tables, first(s)).len();
    put_arguments(behind(s), scope.context.variables, k, out)
}

// A guard's code and its condition.
pub fn condition(scope: &Scope, n: usize, out: &mut Writer) -> Option<usize>
    ensures puts { Puts (Conditions scope.now.words.now scope.now.context.tables.now n scope.now.context.variables.now) out.old out.new result }
    ensures left { IfSome result (λ left. left ≤ n) }
{
    out.head(GUARD as u16, &scope.words[..0])?;
    put_row(scope, n, 1, out)
}
