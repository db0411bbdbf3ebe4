// Process terms as a rule stream spells them, checked and measured in one pass (document 01, "Blocks and the rule stream",
// item 5; "Unfolding, size and breadth").
#![tactic(auto)]

ghost use Rattle.std.specs.Prelude.{◌≡◌, Bool, ◌-◌, ◌<◌, get_or, length};
ghost use Rattle.eb3.specs.RuleSets.{attributes};
ghost use Rattle.eb3.specs.Scopes.{guard_scope};
ghost use Rattle.eb3.specs.Reading.{both};
ghost use Rattle.eb3.specs.ExpressionReading.{read_cond};
ghost use Rattle.eb3.specs.RuleReading.{rule_action_of, call_of, RuleKind, rule_by, read_rule_term};
ghost use Rattle.measures.specs.Weighing.{measure};
ghost use Rattle.tables.specs.Tables.{declared, callee};
ghost use Rattle.words.specs.Checking.{checked};
ghost use Rattle.rule_terms.specs.Weighed.{weighed, terms, answer, weighed_two, weighed_copies, mask_if, copies_of, quantifier};

use code_numbers::{
    ACTION, CHOICE, CHOICE_OVER, GUARD, INTERNAL, PARALLEL, PARALLEL_OVER, SEQUENCE, STAR,
};
use codes::{Due, code_due};
use expression_check::{Scope, check_cond};
use measures::{Joint, Weight, empty, guard, joined, single, stars};
use refusals::Refusal;
use tables::layout::{BREADTH, REACH, SIZE};
use tables::{
    Context, MASK_WORDS, check_arguments, check_mask, domains, functions, label_row, labels,
    mask_zero, parameters_row, process_entry, processes, size_of, with,
};
use words::repeats::leading;
use words::{after, behind, first, last, number_or_refusal};

// The most variables in scope: a process's parameters, and one for each quantifier around.
const VARIABLES: usize = 8;

// How many words are left after a term, and what the term measures.
#[derive(Clone, Copy)]
pub struct Weighed {
    pub left: usize,
    pub weight: Weight,
}

// Over the elements of a domain: a choice of copies, or copies in parallel, for which a mask is given.
#[derive(Clone, Copy)]
enum Quantifier {
    Choice,
    Parallel,
}

// ── the tables ──

// The measures of a process that was read before.
#[tactic(auto, using(crate::proofs::Leaves::row_in))]
fn weight_of(tb: &[u32], p: usize) -> Weight
    ensures { measure result ≡ callee tb.now p }
{
    if p < processes(tb) {
        return Weight {
            size: process_entry(tb, p, SIZE),
            reach: process_entry(tb, p, REACH),
            breadth: process_entry(tb, p, BREADTH),
        };
    }
    empty()
}

// ── terms ──

// A label and its arguments.
fn action(t: &[u16], context: &Context) -> Result<Weighed, Refusal>
    ensures { result ≡ answer context.now.tables.now (rule_action_of (declared context.now.tables.now) context.now.variables.now t.now) }
{
    let n = number_or_refusal(t, Refusal::Reference, labels(context.tables))?;
    let ds = label_row(context.tables, first(t));
    let left = check_arguments(last(t, n), context.tables, context.variables, ds)?;
    Ok(Weighed {
        left,
        weight: single(2 + 2 * ds.len() as u64),
    })
}

// A lower process and its arguments.
// Stays beside `action`: they share the check of the arguments, a function, and differ in the limit, in the table's row and in what the term measures. One
// function of both would be handed all three.
fn call(t: &[u16], context: &Context) -> Result<Weighed, Refusal>
    ensures { result ≡ answer context.now.tables.now (call_of (declared context.now.tables.now) context.now.variables.now t.now) }
{
    let n = number_or_refusal(t, Refusal::Reference, processes(context.tables))?;
    let p = first(t);
    let ds = parameters_row(context.tables, p);
    let left = check_arguments(last(t, n), context.tables, context.variables, ds)?;
    Ok(Weighed {
        left,
        weight: weight_of(context.tables, p),
    })
}

// A term inside a term. Each level of nesting is one frame of `check_term`, where what a call is given has its place only while
// this runs, so that the calls of all arms share one place.
#[cycle(terms)]
fn operand(t: &[u16], context: &Context) -> Result<Weighed, Refusal>
    ensures { result ≡ answer context.now.tables.now (terms context.now.tables.now context.now.variables.now t.now) }
{
    check_term(t, context)
}

// Two terms in a row. Always inlined: a level of nesting is then one frame of `check_term`, of 208 bytes, and else this
// function's beside it.
#[inline(always)]
#[cycle(terms)]
#[tactic(auto, using(crate::proofs::Codes::parts))]
fn two_terms(t: &[u16], context: &Context, joint: Joint) -> Result<Weighed, Refusal>
    ensures { result ≡ weighed_two (declared context.now.tables.now) (callee context.now.tables.now) joint (both (terms context.now.tables.now context.now.variables.now) (terms context.now.tables.now context.now.variables.now) t.now) }
{
    let a = operand(t, context)?;
    let b = operand(last(t, a.left), context)?;
    Ok(Weighed {
        left: b.left,
        weight: joined(joint, a.weight, b.weight),
    })
}

// A mask and two terms.
#[cycle(terms)]
#[tactic(auto, using(crate::proofs::Codes::parts))]
fn in_parallel(t: &[u16], context: &Context) -> Result<Weighed, Refusal>
    ensures { result ≡ answer context.now.tables.now (rule_by (declared context.now.tables.now) (read_rule_term (declared context.now.tables.now)) context.now.variables.now RuleKind.parallel t.now) }
{
    let n = check_mask(t, MASK_WORDS, labels(context.tables))?;
    two_terms(last(t, n), context, Joint::Parallel(mask_zero(t)))
}

// A guard's condition, which names no function before. Apart from `guarded`, so that what it gives to its call shares its place
// in the frame with what `operand` gives.
#[tactic(auto, using(crate::proofs::Binders::condition_in))]
fn condition(t: &[u16], context: &Context) -> Result<usize, Refusal>
    ensures { result ≡ checked (read_cond (guard_scope (attributes (declared context.now.tables.now)) (length context.now.variables.now)) t.now) }
{
    let c = Scope {
        variables: context.variables.len(),
        now: functions(context.tables),
        before: 0,
    };
    check_cond(t, c)
}

// A condition, whose size is the words that it took, and a term.
#[cycle(terms)]
#[tactic(auto, using(crate::proofs::Codes::binders))]
fn guarded(t: &[u16], context: &Context) -> Result<Weighed, Refusal>
    ensures { result ≡ answer context.now.tables.now (rule_by (declared context.now.tables.now) (read_rule_term (declared context.now.tables.now)) context.now.variables.now RuleKind.guard t.now) }
{
    let n = condition(t, context)?;
    let a = operand(last(t, n), context)?;
    Ok(Weighed {
        left: a.left,
        weight: guard(t.len().saturating_sub(n) as u64, a.weight),
    })
}

// ── quantifiers: a choice, or with a mask a parallel, of a copy for each element of a domain ──

#[tactic(auto, using(crate::proofs::Parts::mask_some, crate::proofs::Parts::mask_none))]
fn mask_if(over: Quantifier, t: &[u16], tb: &[u32]) -> Result<usize, Refusal>
    ensures { result ≡ checked (mask_if over (declared tb.now) t.now) }
{
    match over {
        Quantifier::Choice => Ok(t.len()),
        Quantifier::Parallel => check_mask(t, MASK_WORDS, labels(tb)),
    }
}

// Copies of a term of that weight, n of them.
// Stays: whether the mask is zero is a Bool, as in `measures`, whose line says why.
#[tactic(auto, unfolding(crate::specs::Weighed::copies_of, measures::specs::Weighing::joint_of))]
fn copied(over: Quantifier, n: usize, zero: bool, a: Weight) -> Weight
    ensures { measure result ≡ copies_of over zero n (measure a) }
{
    match over {
        Quantifier::Choice => measures::copies(Joint::Choice, n, a),
        Quantifier::Parallel => measures::copies(Joint::Parallel(zero), n, a),
    }
}

// A mask where there is one, and a term, of which there are n copies.
// Stays: n is the size of a domain, and says nothing of how many of the words count.
#[cycle(terms)]
#[tactic(auto, using(crate::proofs::Codes::parts))]
fn copies(t: &[u16], context: &Context, n: usize, over: Quantifier) -> Result<Weighed, Refusal>
    ensures { result ≡ weighed_copies (declared context.now.tables.now) (callee context.now.tables.now) over n (both (mask_if over (declared context.now.tables.now)) (terms context.now.tables.now context.now.variables.now) t.now) }
{
    let m = mask_if(over, t, context.tables)?;
    let a = operand(last(t, m), context)?;
    Ok(Weighed {
        left: a.left,
        weight: copied(over, n, mask_zero(t), a.weight),
    })
}

// A domain, and copies of a term with one variable more. As a function with two callers it keeps a frame of its own, of 192
// bytes at most eight times, and takes nothing of `check_term`'s.
#[cycle(terms)]
#[tactic(auto, using(crate::proofs::Codes::binders))]
fn quantified(t: &[u16], context: &Context, over: Quantifier) -> Result<Weighed, Refusal>
    requires { length context.now.variables.now < 8 }
    ensures { result ≡ answer context.now.tables.now (rule_by (declared context.now.tables.now) (read_rule_term (declared context.now.tables.now)) context.now.variables.now (quantifier over) t.now) }
{
    let n = number_or_refusal(t, Refusal::Reference, domains(context.tables))?;
    let more = with(context.variables, t[0]);
    let k = context.variables.len() + 1;
    let inside = Context {
        tables: context.tables,
        variables: &more[..k],
    };
    copies(last(t, n), &inside, size_of(context.tables, first(t)), over)
}

// ── any term ──

// A term that is no star.
#[cycle(terms)]
#[tactic(auto, using(crate::proofs::Codes::codes))]
fn check_plain(s: &[u16], context: &Context) -> Result<Weighed, Refusal>
    requires { get_or s.now 0 0 ≡ 24 → ⊥ }
    ensures { result ≡ answer context.now.tables.now (terms context.now.tables.now context.now.variables.now s.now) }
{
    let w = code_due(s, 0, Due::RuleTerm)?;
    let t = behind(s);
    match w {
        INTERNAL => Ok(Weighed {
            left: t.len(),
            weight: single(1),
        }),
        ACTION => action(t, context),
        SEQUENCE => two_terms(t, context, Joint::Sequence),
        CHOICE => two_terms(t, context, Joint::Choice),
        PARALLEL => in_parallel(t, context),
        GUARD => guarded(t, context),
        // Stays a test within each of the two arms: as a guard of the arm it was proved, and a level of check_term took 240 bytes of the stack for 208.
        CHOICE_OVER => {
            if context.variables.len() < VARIABLES {
                return quantified(t, context, Quantifier::Choice);
            }
            Err(Refusal::Form)
        }
        PARALLEL_OVER => {
            if context.variables.len() < VARIABLES {
                return quantified(t, context, Quantifier::Parallel);
            }
            Err(Refusal::Form)
        }
        // a call
        _ => call(t, context),
    }
}

// One term, where the domains of the variables in scope are given. Stars in a row are counted and not descended into.
#[cycle(terms)]
#[tactic(auto, using(crate::proofs::Stars::around))]
pub fn check_term(s: &[u16], context: &Context) -> Result<Weighed, Refusal>
    ensures { result ≡ weighed (declared context.now.tables.now) (callee context.now.tables.now) (read_rule_term (declared context.now.tables.now) context.now.variables.now s.now) }
{
    let k = leading(s, STAR);
    let a = check_plain(after(s, k), context)?;
    Ok(Weighed {
        left: a.left,
        weight: stars(k, a.weight),
    })
}
