// Masks and arguments of process terms, and the tables that they are judged by (document 01, "Blocks and the rule
// stream", item 5: four mask words; arguments are codes 1 or 2, of the parameter's domain).
#![tactic(auto)]

ghost use Rattle.std.specs.Prelude.{◌≡◌, Bool, List, [], ◌∷◌, ◌++◌, ℕ, ◌+◌, ◌-◌, ◌*◌, ◌%◌, ◌^◌, ◌≤◌, ◌<◌, min, drop, take, get_or, length};
ghost use Rattle.eb3.specs.Admission.{all_zero};
ghost use Rattle.eb3.specs.Sizes.{zero_mask};
ghost use Rattle.eb3.specs.RuleSets.{RuleSet, domain_size};
ghost use Rattle.eb3.specs.TermReading.{mask_of};
ghost use Rattle.eb3.specs.RuleReading.{argument_of, arguments_of};
ghost use Rattle.words.specs.Checking.{checked, last_of};
ghost use Rattle.tables.specs.Layout.{label_place, process_place, process_words, domain_count, label_count, function_count, process_count};
ghost use Rattle.tables.specs.Tables.{row, declared, constant_of_domain, variable_of_domain};

use code_numbers::{CONSTANT, VARIABLE};
use refusals::Refusal;
use words::{behind, first, front, last, number_or_refusal};

pub mod layout;

use layout::{DOMAINS, FUNCTIONS, LABELS, PROCESSES, SIZES, label_place, process_place};

/// How many words a mask has.
pub const MASK_WORDS: usize = 4;

/// What a process term is read with: the rule set's tables, and what is known of each variable in scope, its domain or its value.
#[derive(Clone, Copy)]
pub struct Context<'a> {
    pub tables: &'a [u32],
    pub variables: &'a [u16],
    pub ghost few: { length variables.now ≤ 8 },
}

// ── the tables ──

// Stays: these three, though no crate here calls them any more and today's form is a cast in place: a rule of the project, a public function keeps its promise.
// A number of 32 bits as a number.
pub fn wide32(x: u32) -> usize
    ensures { (result ≡ x) × (result < 4294967296) }
{
    x as usize
}

// A number's low 32 bits.
pub fn low32(x: usize) -> u32
    ensures { result ≡ x % 4294967296 }
{
    (x % 4294967296) as u32
}

// A number that has no others.
pub fn narrow32(x: usize) -> u32
    requires { x < 4294967296 }
    ensures { result ≡ x }
{
    x as u32
}

// The word at a place, or 0 past the end.
// Stays, as `first` of words and `word` of actions: std's chain is the generic function, and this names it, so that its uses are short and its contract says
// get_or once. One function of all three would be generic and public, and each use would give it the 0.
pub fn entry(tb: &[u32], at: usize) -> u32
    ensures { result ≡ get_or tb.now at 0 }
{
    tb.get(at).copied().unwrap_or(0)
}

// How many domains, labels, functions and processes there are.
// Stays four functions that differ in the place: each is named where it is read, and its contract names the place that the specification knows. One
// function with the place as a parameter would be `entry`.
pub fn domains(tb: &[u32]) -> usize
    ensures { result ≡ domain_count tb.now }
{
    entry(tb, DOMAINS) as usize
}

pub fn labels(tb: &[u32]) -> usize
    ensures { result ≡ label_count tb.now }
{
    entry(tb, LABELS) as usize
}

pub fn functions(tb: &[u32]) -> usize
    ensures { result ≡ function_count tb.now }
{
    entry(tb, FUNCTIONS) as usize
}

// Stays, here and in size_of: the bound is said beside the number by a rule of the project, a public function keeps its promise.
pub fn processes(tb: &[u32]) -> usize
    ensures { (result ≡ process_count tb.now) × (result < 4294967296) }
{
    entry(tb, PROCESSES) as usize
}

// The row at a place: its first number says how many follow, and these are given, as many as are there.
#[tactic(auto, using(crate::proofs::Cases::tables))]
pub fn row_at(tb: &[u32], at: usize) -> &[u32]
    ensures { result.now ≡ row tb.now at }
{
    if at < tb.len() {
        return front(&tb[at + 1..], tb[at] as usize);
    }
    &[]
}

// The domains of label l's parameters.
// Stays, here and in the two below: l and p are usize with their bound as a clause, since a place in the tables is made of each.
pub fn label_row(tb: &[u32], l: usize) -> &[u32]
    requires { l < 4294967296 }
    ensures { result.now ≡ row tb.now (label_place l) }
{
    row_at(tb, label_place(l))
}

// The domains of process p's parameters.
pub fn parameters_row(tb: &[u32], p: usize) -> &[u32]
    requires { p < 4294967296 }
    ensures { result.now ≡ row tb.now (process_place p) }
{
    row_at(tb, process_place(p))
}

// What process p's row has in a column: a measure of its term, or where the term begins.
pub fn process_entry(tb: &[u32], p: usize, column: usize) -> u32
    requires { (p < 4294967296) × (column < process_words) }
    ensures { result ≡ get_or tb.now (process_place p + column) 0 }
{
    entry(tb, process_place(p) + column)
}

// The size of domain d, or 0 where there is no such domain.
pub fn size_of(tb: &[u32], d: usize) -> usize
    ensures { (result ≡ domain_size (declared tb.now) d) × (result < 4294967296) }
{
    if d < domains(tb) {
        return entry(tb, SIZES + d) as usize;
    }
    0
}

// ── masks ──

// What the bits of a mask word stay below, where n labels are left.
fn mask_limit(n: usize) -> usize
    ensures { result ≡ 2 ^ min n 16 }
{
    1 << n.min(16)
}

// The k words of a mask, where n labels are left.
// Stays with the tests that `words::number_or_refusal` makes: with a call of it for each word, which was proved, the check of 900 given parallels takes a
// tenth more instructions, measured.
// Stays: k does not say how many of the words count, but how many a mask has. All callers give MASK_WORDS; it stays a parameter by a rule of the project, a
// public function keeps its promise.
#[tactic(auto, using(crate::proofs::Rounds::a_mask))]
pub fn check_mask(t: &[u16], k: usize, n: usize) -> Result<usize, Refusal>
    ensures { result ≡ checked (mask_of k n t.now) }
{
    let mut left = n;
    for i in 0..k {
        if t.len() <= i {
            return Err(Refusal::Form);
        }
        if mask_limit(left) <= t[i] as usize {
            return Err(Refusal::Reference);
        }
        left = left.saturating_sub(16);
    }
    Ok(t.len() - k)
}

// All words are zero.
pub fn zeros(t: &[u16]) -> bool
    ensures { result ≡ all_zero t.now }
{
    t.iter().all(|&w| w == 0)
}

// The four words at the front are zero.
pub fn mask_zero(t: &[u16]) -> bool
    ensures { result ≡ zero_mask (take 4 t.now) }
{
    zeros(front(t, MASK_WORDS))
}

// ── variables ──

// What is known of the variables in scope, their domains or their values, and of one more.
// Stays, here and where a variable is added (rule_terms, unfold): that there is room for one more is a clause, since a `Context` may have eight variables.
pub fn with(vars: &[u16], x: u16) -> [u16; 8]
    requires { length vars.now < 8 }
    ensures { take (length vars.now + 1) result ≡ vars.now ++ (x ∷ []) }
{
    let mut more = [x; 8];
    more[..vars.len()].copy_from_slice(vars);
    more
}

// ── arguments ──

// An argument of the domain d; `vars` are the domains of the variables in scope.
// Stays, here and in check_arguments: the tables and the variables come apart, since neither asks how many variables there are, and a `Context` has at
// most eight.
#[tactic(auto, using(crate::proofs::Cases::an_argument))]
fn check_argument(t: &[u16], tb: &[u32], vars: &[u16], d: usize) -> Result<usize, Refusal>
    ensures { result ≡ checked (argument_of (declared tb.now) vars.now d t.now) }
{
    if t.len() == 0 {
        return Err(Refusal::Form);
    }
    match t[0] as usize {
        CONSTANT => constant_argument(behind(t), tb, d),
        VARIABLE => variable_argument(behind(t), vars, d),
        _ => Err(Refusal::Form),
    }
}

// A constant below the domain's size: 4 before 6 at one word.
#[tactic(auto, using(crate::proofs::Cases::an_argument))]
fn constant_argument(t: &[u16], tb: &[u32], d: usize) -> Result<usize, Refusal>
    ensures { result ≡ checked (constant_of_domain (declared tb.now) d t.now) }
{
    let n = number_or_refusal(t, Refusal::Form, 65535)?;
    if first(t) < size_of(tb, d) {
        return Ok(n);
    }
    Err(Refusal::Kind)
}

// A variable in scope, of the same domain: 5 before 6 at one word.
#[tactic(auto, using(crate::proofs::Cases::an_argument))]
fn variable_argument(t: &[u16], vars: &[u16], d: usize) -> Result<usize, Refusal>
    ensures { result ≡ checked (variable_of_domain vars.now d t.now) }
{
    let n = number_or_refusal(t, Refusal::Reference, vars.len())?;
    if vars[first(t)] as usize == d {
        return Ok(n);
    }
    Err(Refusal::Kind)
}

// An argument for each of some domains. Always inlined: as a call, a term of actions takes a fifth more instructions.
#[inline(always)]
#[tactic(auto, using(crate::proofs::Rounds::all_arguments))]
pub fn check_arguments(t: &[u16], tb: &[u32], vars: &[u16], ds: &[u32]) -> Result<usize, Refusal>
    ensures { result ≡ checked (arguments_of (declared tb.now) vars.now ds.now t.now) }
{
    let mut n = t.len();
    for &d in ds {
        n = check_argument(last(t, n), tb, vars, d as usize)?;
    }
    Ok(n)
}
