// The unfolding of process terms, written into a lent buffer (document 01, "Unfolding, size and breadth"). Each call is replaced by the
// callee's body, read where the tables say that it is. The answers are how many words are left after those read; None where there is no
// room, or not what should be there.
#![tactic(auto)]

ghost use Rattle.std.specs.Prelude.{◌≡◌, ◌-◌, ◌*◌, ◌≤◌, ◌<◌, ◌∷◌};
ghost use Rattle.std.proofs.Math.ListN.{length};
ghost use Rattle.eb3.specs.RuleSets.{RuleSet};
ghost use Rattle.eb3.specs.Unfolding.{unfold_main};
ghost use Rattle.eb3.specs.Spelling.{words};
ghost use Rattle.eb3.specs.Bytes.{written};
ghost use Rattle.unfold.specs.Unfolded.{MainUnfolded, Unfolding, UnfoldedInto, Here};
ghost use Rattle.unfold.specs.Joints.{code_of, mask_of};
ghost use Rattle.unfold.specs.Puts.{Puts};
ghost use Rattle.unfold.specs.Saying.{Guards, Stars, TwoTerms, Copies, Joins, Overs, Enters, Calls};

mod rows;
mod scope;
mod values;
mod writer;

use code_numbers::{
    ACTION, CALL, CHOICE, CHOICE_OVER, GUARD, INTERNAL, PARALLEL, PARALLEL_OVER, SEQUENCE, STAR,
};
use rows::{action, condition};
use scope::Scope;
use tables::layout::BODY;
use tables::{Context, MASK_WORDS, parameters_row, process_entry, processes, size_of, with};
use values::arguments_of;
use words::{first, last};
use writer::Writer;

// What joins two terms.
// Stays beside `Joint` of measures: nothing else here is of measures, and that one's parallel says by a bool whether its mask is zero, which is not asked here.
#[derive(Clone, Copy)]
enum Joint {
    Sequence,
    Choice,
    Parallel,
}

impl Joint {
    fn code(self) -> u16
        ensures { result ≡ code_of self }
    {
        match self {
            Joint::Sequence => SEQUENCE as u16,
            Joint::Choice => CHOICE as u16,
            Joint::Parallel => PARALLEL as u16,
        }
    }

    // How many words of a mask follow the code.
    fn mask_words(self) -> usize
        ensures { result ≡ mask_of self }
    {
        match self {
            Joint::Sequence | Joint::Choice => 0,
            Joint::Parallel => MASK_WORDS,
        }
    }
}

// Two terms in a row.
// Stays, here and below: scope, n and out are three parameters. The scope is shared, out is written, and most calls are handed another n: how many words are
// left, a number and no slice, since the answers are such numbers and the tables say by one where a body begins.
#[cycle(unfolding_terms)]
fn two_terms(scope: &Scope, n: usize, out: &mut Writer) -> Option<usize>
    ensures { Puts (Here TwoTerms scope.now n) out.old out.new result }
{
    let left = unfold(scope, n, out)?;
    // a term that is there leaves fewer words than it found; what else is there must not keep the reading from ending
    if n < left {
        return None;
    }
    unfold(scope, left, out)
}

// A sequence, a choice or a parallel: its code, the words of its mask, and two terms.
#[cycle(unfolding_terms)]
fn joined(scope: &Scope, n: usize, joint: Joint, out: &mut Writer) -> Option<usize>
    ensures { Puts (Here Joins scope.now n (code_of joint) (mask_of joint)) out.old out.new result }
{
    let s = last(scope.words, n);
    let k = joint.mask_words();
    if s.len() < k {
        return None;
    }
    out.head(joint.code(), &s[..k])?;
    two_terms(scope, s.len() - k, out)
}

#[cycle(unfolding_terms)]
fn starred(scope: &Scope, n: usize, out: &mut Writer) -> Option<usize>
    ensures { Puts (Here Stars scope.now n) out.old out.new result }
{
    out.head(STAR as u16, &scope.words[..0])?;
    unfold(scope, n, out)
}

// Never inlined: as a part of `unfold` it has each term save more registers, and a Start takes up to 1.06 times the instructions (1.02 of the library of 8
// books); one of 1,000 guards alone takes 0.96.
#[inline(never)]
#[cycle(unfolding_terms)]
fn guarded(scope: &Scope, n: usize, out: &mut Writer) -> Option<usize>
    ensures { Puts (Here Guards scope.now n) out.old out.new result }
{
    let left = condition(scope, n, out)?;
    unfold(scope, left, out)
}

// The copy of a quantifier's term for one element: the variables have these values, the last of which is the element's.
#[cycle(unfolding_terms)]
fn copy(scope: &Scope, n: usize, variables: &[u16], out: &mut Writer) -> Option<usize>
    requires { length variables.now ≤ 8 }
    ensures { Unfolding scope.now.words.now scope.now.context.tables.now n scope.now.process variables.now out.old out.new result }
{
    let context = Context {
        tables: scope.context.tables,
        variables,
    };
    // Stays field by field: a struct with ghost fields takes no `..*scope`.
    let inner = Scope {
        words: scope.words,
        context,
        process: scope.process,
    };
    unfold(&inner, n, out)
}

// The copies for each element of a domain of this size, nested to the right: each but the last has a head. The values are in one array for all copies, in
// which the element's is renewed.
#[cycle(unfolding_terms)]
fn copies(
    scope: &Scope,
    n: usize,
    size: usize,
    joint: Joint,
    mask: &[u16],
    out: &mut Writer,
) -> Option<usize>
    requires { (length scope.now.context.variables.now < 8) × (size ≤ 64) }
    ensures { Puts (Here Copies scope.now n (code_of joint ∷ mask.now) 0 (size - 1)) out.old out.new result }
{
    let most = size.saturating_sub(1) as u16;
    let k = scope.context.variables.len();
    let mut more = with(scope.context.variables, most);
    for x in 0..most {
        out.head(joint.code(), mask)?;
        more[k] = x;
        copy(scope, n, &more[..k + 1], out)?;
    }
    more[k] = most;
    copy(scope, n, &more[..k + 1], out)
}

// A quantifier: a domain, the mask of what joins the copies, and a term.
#[cycle(unfolding_terms)]
fn over(scope: &Scope, n: usize, joint: Joint, out: &mut Writer) -> Option<usize>
    ensures { Puts (Here Overs scope.now n (code_of joint) (mask_of joint)) out.old out.new result }
{
    let s = last(scope.words, n);
    let m = 1 + joint.mask_words();
    if s.len() < m || 8 <= scope.context.variables.len() {
        return None;
    }
    let size = size_of(scope.context.tables, first(s));
    if 64 < size {
        return None;
    }
    copies(scope, s.len() - m, size, joint, &s[1..m], out)
}

// The body of process p; the words of its arguments are the next.
#[cycle(unfolding_terms)]
fn body(scope: &Scope, n: usize, p: usize, out: &mut Writer) -> Option<usize>
    requires { p ≤ 32 }
    ensures { Puts (Enters scope.now.words.now scope.now.context.tables.now n p scope.now.context.variables.now) out.old out.new result }
{
    let s = last(scope.words, n);
    let k = parameters_row(scope.context.tables, p).len();
    if 8 < k {
        return None;
    }
    let m = 2 * k;
    if s.len() < m {
        return None;
    }
    let mut places = [0; 8];
    let values = &mut places[..k];
    arguments_of(s, scope.context.variables, values);
    let start = process_entry(scope.context.tables, p, BODY) as usize;
    let context = Context {
        tables: scope.context.tables,
        variables: values,
    };
    let inner = Scope {
        words: scope.words,
        context,
        process: p,
    };
    enter(&inner, start, out)?;
    Some(s.len() - m)
}

// A call, which names a lower process.
#[cycle(unfolding_terms)]
fn call(scope: &Scope, n: usize, out: &mut Writer) -> Option<usize>
    ensures { Puts (Here Calls scope.now n) out.old out.new result }
{
    let s = last(scope.words, n);
    if s.is_empty() {
        return None;
    }
    let p = first(s);
    if scope.process <= p {
        return None;
    }
    body(scope, s.len() - 1, p, out)
}

// A body, where n words are left.
// Stays beside `unfold`: a call that is the whole of a body is entered from here, so that it has one frame and not two. A Start of 64 calls, each with 30
// calls within one another, takes 0.81 of the instructions, and others take at most 1.03, measured.
#[cycle(unfolding_terms)]
#[tactic(auto, using(crate::proofs::RowCases::last_size))]
fn enter(scope: &Scope, n: usize, out: &mut Writer) -> Option<usize>
    ensures { Here Unfolding scope.now n out.old out.new result }
{
    let s = last(scope.words, n);
    if s.is_empty() {
        return None;
    }
    if s[0] as usize == CALL {
        return call(scope, s.len() - 1, out);
    }
    unfold(scope, n, out)
}

// The term where n words are left.
#[tactic(auto, using(crate::proofs::RowCases::last_size))]
#[cycle(unfolding_terms)]
fn unfold(scope: &Scope, n: usize, out: &mut Writer) -> Option<usize>
    ensures { Here Unfolding scope.now n out.old out.new result }
{
    let s = last(scope.words, n);
    if s.is_empty() {
        return None;
    }
    let m = s.len() - 1;
    match s[0] as usize {
        INTERNAL => {
            out.head(INTERNAL as u16, &scope.words[..0])?;
            Some(m)
        }
        ACTION => action(scope, m, out),
        SEQUENCE => joined(scope, m, Joint::Sequence, out),
        CHOICE => joined(scope, m, Joint::Choice, out),
        STAR => starred(scope, m, out),
        PARALLEL => joined(scope, m, Joint::Parallel, out),
        GUARD => guarded(scope, m, out),
        CHOICE_OVER => over(scope, m, Joint::Choice, out),
        PARALLEL_OVER => over(scope, m, Joint::Parallel, out),
        CALL => call(scope, m, out),
        _ => None,
    }
}

// The same from a buffer's first word on; the answer is how many words are written.
fn unfold_into(scope: &Scope, n: usize, out: &mut [u8]) -> Option<usize>
    requires { length out.old ≤ 131070 }
    ensures { Here UnfoldedInto scope.now n out.old out.new result }
{
    let mut writer = Writer { bytes: out, at: 0 };
    unfold(scope, n, &mut writer)?;
    Some(writer.at)
}

// Main's unfolding, and its size; where there is room for it.
// Stays a number, 0 where there is no room: an Option would make of a call that cannot fail one that may, and its callers, which have admitted the rule set
// and have room for its reach, would have to say what they do where it does.
// Stays: that the words are at most 65,535 becomes a field of `Scope` here; and that the buffer keeps its length is a fact of what it was and what it is
// then, which no field of a struct holds.
pub fn unfold_main(t: &[u16], tb: &[u32], out: &mut [u8]) -> usize
    requires { length t.now ≤ 65535 }
    ensures { (length out.new ≡ length out.old) × MainUnfolded t.now tb.now out.old out.new result }
{
    let count = processes(tb);
    if count == 0 || 32 < count {
        return 0;
    }
    let p = count - 1;
    let start = process_entry(tb, p, BODY) as usize;
    let context = Context {
        tables: tb,
        variables: &t[..0],
    };
    let scope = Scope {
        words: t,
        context,
        process: p,
    };
    // no unfolding within the limits has more than 65,535 words
    let room = out.len().min(131070);
    unfold_into(&scope, start, &mut out[..room]).unwrap_or(0)
}
