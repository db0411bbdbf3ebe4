// The check of data expressions and conditions in a rule stream or a guard (document 01, "Values and conditions"):
// a code, count or constant out of range is refused 4, a number that is not defined or not allowed there 5.
// An operand of the same sort is one more expression to come in the row, so that only a condition in data and data in a
// condition need a call: neither time nor stack goes into the depth of sums or of `not`.
#![tactic(auto)]

ghost use Rattle.std.specs.Prelude.{◌≡◌, ◌+◌, ◌<◌, ◌≤◌, length};
ghost use Rattle.eb3.specs.Reading.{repeat};
ghost use Rattle.eb3.specs.ExpressionReading.{read_data, read_cond};
ghost use Rattle.words.specs.Checking.{checked};
ghost use Rattle.expression_check.specs.Scoping.{scope};
ghost use Rattle.expression_check.specs.Fronts.{Operand, DataFront, CondFront};

use code_numbers::{
    BEFORE, CONSTANT, DIFFERENCE, EQUAL, IF, LESS, NOT, NOW, SUM, TRUE, UNDEFINED, VARIABLE,
};
use codes::{Due, code_due};
use refusals::Refusal;
use words::number_or_refusal;

// How many variables there are, and how many functions now and before may name.
// Where before may name none, its code itself is refused.
#[derive(Clone, Copy)]
pub struct Scope {
    pub variables: usize,
    pub now: usize,
    pub before: usize,
}

// What is at the front of a row: the row goes on at a place, with a number of expressions; or an expression of the other
// sort is at a place.
#[derive(Clone, Copy)]
enum Front {
    On(usize, usize),
    Other(usize),
}

// A number below a limit with m expressions after it, else the refusal given.
// Stays, here and in the fronts below: s with a place, and no part of s, since the answer is a place in s, from which the row goes on.
fn operand(s: &[u16], at: usize, refusal: Refusal, limit: usize, m: usize) -> Result<Front, Refusal>
    requires { at ≤ length s.now }
    ensures { Operand refusal limit s.now at m result }
{
    number_or_refusal(&s[at..], refusal, limit)?;
    Ok(Front::On(at + 1, m))
}

// Stays, and so do the two rows below: one function for data and one for conditions, where an enum of the two sorts would make one of both. It was
// proved and measured: a level of `if` in conditions took 224 bytes of the stack for the 192 of these two (144, since cond_row is inlined), and checks of
// long rows 1.05 to 1.14 of the instructions; with the scope by reference 160 bytes, 1.05 to 1.09 of the instructions, and up to 1.3 of the time. With a
// const parameter there is no proof: a call at the other sort is a call of the same cycle at another instance, which the check does not cover.

// A data expression with `rest` more after it.
#[tactic(auto, using(crate::proofs::Cases::fronts))]
fn data_front(s: &[u16], at: usize, rest: usize, c: Scope) -> Result<Front, Refusal>
    requires { rest ≤ at + 1 }
    ensures { DataFront (scope c) s.now at rest result }
{
    let w = code_due(s, at, Due::Data)?;
    let b = at + 1;
    match w {
        UNDEFINED => Ok(Front::On(b, rest)),
        CONSTANT => operand(s, b, Refusal::Form, 65535, rest),
        VARIABLE => operand(s, b, Refusal::Reference, c.variables, rest),
        // Stays an arm for each: as a range, which is tested after the others, they took 3 instructions more.
        SUM => Ok(Front::On(b, rest + 2)),
        DIFFERENCE => Ok(Front::On(b, rest + 2)),
        IF => Ok(Front::Other(b)),
        NOW => operand(s, b, Refusal::Reference, c.now, rest + 1),
        BEFORE if 0 < c.before => operand(s, b, Refusal::Reference, c.before, rest + 1),
        // before, where it may name no function
        _ => Err(Refusal::Form),
    }
}

// A condition with `rest` more after it. No code of a condition depends on the scope; the contract names it for the data in it.
#[tactic(auto, using(crate::proofs::Cases::fronts))]
fn cond_front(s: &[u16], at: usize, rest: usize, c: Scope) -> Result<Front, Refusal>
    requires { rest ≤ at + 1 }
    ensures { CondFront (scope c) s.now at rest result }
{
    let w = code_due(s, at, Due::Condition)?;
    let b = at + 1;
    match w {
        EQUAL..=LESS => Ok(Front::Other(b)),
        NOT => Ok(Front::On(b, rest + 1)),
        TRUE => Ok(Front::On(b, rest)),
        // and, or
        _ => Ok(Front::On(b, rest + 2)),
    }
}

// n data expressions in a row.
// Stays `while`, here and below, since no index is counted, and the code at the front says where the row goes on.
// Stays, here and in cond_row: n counts expressions, and does not say how many of the words count.
#[cycle(rows)]
#[tactic(auto, using(crate::proofs::RowCases::rows))]
fn data_row(s: &[u16], n: usize, c: Scope) -> Result<usize, Refusal>
    requires { n ≤ 2 }
    ensures { result ≡ checked (repeat n (read_data (scope c)) s.now) }
{
    let mut at = 0;
    let mut more = n;
    while 0 < more {
        let rest = more - 1;
        match data_front(s, at, rest, c)? {
            Front::On(b, m) => {
                at = b;
                more = m;
                continue;
            }
            Front::Other(b) => {
                let left = cond_row(&s[b..], 1, c)?;
                at = s.len() - left;
                more = rest + 2;
                continue;
            }
        }
    }
    Ok(s.len() - at)
}

// n conditions in a row.
// Inlined, since its frame would come on top of data_row's at each level of an `if` within a condition.
#[cycle(rows)]
#[inline(always)]
#[tactic(auto, using(crate::proofs::RowCases::rows))]
fn cond_row(s: &[u16], n: usize, c: Scope) -> Result<usize, Refusal>
    requires { n ≤ 2 }
    ensures { result ≡ checked (repeat n (read_cond (scope c)) s.now) }
{
    let mut at = 0;
    let mut more = n;
    while 0 < more {
        let rest = more - 1;
        match cond_front(s, at, rest, c)? {
            Front::On(b, m) => {
                at = b;
                more = m;
                continue;
            }
            Front::Other(b) => {
                let left = data_row(&s[b..], 2, c)?;
                at = s.len() - left;
                more = rest;
                continue;
            }
        }
    }
    Ok(s.len() - at)
}

#[tactic(auto, using(crate::proofs::RowCases::rows))]
pub fn check_data(s: &[u16], c: Scope) -> Result<usize, Refusal>
    ensures { result ≡ checked (read_data (scope c) s.now) }
{
    data_row(s, 1, c)
}

#[tactic(auto, using(crate::proofs::RowCases::rows))]
pub fn check_cond(s: &[u16], c: Scope) -> Result<usize, Refusal>
    ensures { result ≡ checked (read_cond (scope c) s.now) }
{
    cond_row(s, 1, c)
}
