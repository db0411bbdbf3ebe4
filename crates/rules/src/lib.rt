// A rule set's stream after its first two words, read once from the front: items 2 to 5, the tables and the directory that they
// fill, and main's measures (document 01, "Blocks and the rule stream"; refusals 4 to 6).
#![tactic(auto)]

ghost use Rattle.std.specs.Prelude.{◌≡◌, List, [], ◌∷◌, ◌++◌, ℕ, ◌+◌, ◌-◌, ◌*◌, ◌≤◌, ◌<◌, drop, take, get_or, length, set};
ghost use Rattle.eb3.specs.RuleReading.{parameter_limit, read_process};
ghost use Rattle.tables.specs.Layout.{domain_count, process_count};
ghost use Rattle.tables.specs.Tables.{declared, callee};
ghost use Rattle.declarations.specs.Declaring.{entered_process};
ghost use Rattle.declarations.specs.Bounds.{Bounded};
ghost use Rattle.rules.specs.Sections.{process_weighed};
ghost use Rattle.rules.specs.Filling.{ProcessesRead, ProcessSectionRead, FunctionSectionRead, LabelSectionRead, RulesRead};

use declarations::{check_domains, copy, enter_labels, functions, parameters};
use measures::{Weight, empty};
use refusals::Refusal;
use rule_terms::{Weighed, check_term};
use tables::layout::{
    BODY, BREADTH, DOMAINS, FUNCTIONS, LABELS, PROCESSES, REACH, SIZE, TABLES, label_place,
    process_place,
};
use tables::{Context, domains};
use words::{count, first, last};

// What a rule set comes to: how many words are left after it, its cells, and main's measures.
#[derive(Clone, Copy)]
pub struct Rules {
    pub left: usize,
    pub cells: usize,
    pub weight: Weight,
}

// ── processes ──

fn limit_of(n: usize) -> usize
    ensures { (result ≡ parameter_limit n) × (result ≤ 4) }
{
    if n == 0 { 0 } else { 4 }
}

// A process: its parameters, at most hi, and its term.
fn check_process(t: &[u16], tb: &[u32], hi: usize) -> Result<Weighed, Refusal>
    requires { hi ≤ 8 }
    ensures { result ≡ process_weighed (declared tb.now) (callee tb.now) (read_process (declared tb.now) hi t.now) }
{
    let m = parameters(t, hi, domains(tb))?;
    let k = first(t) + 1;
    let context = Context {
        tables: tb,
        variables: &t[1..k],
    };
    check_term(last(t, m), &context)
}

// Process p, whose parameters are at the front of t, may be called from now on.
// Stays, here and in `processes`: p, n and left are usize with their bounds as clauses, since p and n make places in the tables, and left is how many words
// are left, which are counted as usize.
#[tactic(auto, using(crate::proofs::ProcessCases::entered_is))]
fn enter_process(tb: &mut [u32; TABLES], t: &[u16], p: usize, w: Weight, left: usize)
    requires { (p < 32) × (get_or t.now 0 0 ≤ 4) × (get_or t.now 0 0 + 1 ≤ length t.now) × (left < 65536) }
    ensures { tb.new ≡ entered_process tb.old p (take (get_or t.now 0 0 + 1) t.now) w.size w.reach w.breadth left }
{
    let k = first(t) + 1;
    let at = process_place(p);
    copy(tb, at, &t[..k]);
    tb[at + SIZE] = w.size;
    tb[at + REACH] = w.reach;
    tb[at + BREADTH] = w.breadth;
    tb[at + BODY] = left as u32;
    tb[PROCESSES] = (p + 1) as u32;
}

// n processes; the last is main, whose measures are returned.
// Stays, here and below: that the tables are `Bounded` is a fact of what the sections before have put into them, and each of these functions writes into
// them.
fn processes(t: &[u16], tb: &mut [u32; TABLES], n: usize) -> Result<Weighed, Refusal>
    requires { (1 ≤ n) × (n ≤ 32) × (length t.now ≤ 65535) × (process_count tb.old ≡ 0) × Bounded tb.old }
    ensures { ProcessesRead t.now tb.old n result tb.new }
{
    let mut main = Weighed {
        left: t.len(),
        weight: empty(),
    };
    for p in 0..n {
        let u = last(t, main.left);
        main = check_process(u, tb, limit_of(n - 1 - p))?;
        let left = u.len() - (first(u) + 1);
        enter_process(tb, u, p, main.weight, left);
    }
    Ok(main)
}

// ── the sections in a row ──

// Stays: that the words are at most 65,535, which keeps a place in them small, is asked by the four functions here. Each is given another part of
// the words, for which a struct with this fact would be made anew.
// Stays: three of them take the words, the tables and the directory. The words are others at each call, and most of what they call takes
// one of the two arrays: a struct of both would be taken apart at each of these calls.

fn process_section(t: &[u16], tb: &mut [u32; TABLES]) -> Result<Weighed, Refusal>
    requires { (length t.now ≤ 65535) × Bounded tb.old }
    ensures { ProcessSectionRead t.now tb.old result tb.new }
{
    let m = count(t, 1, 32)?;
    let n = first(t);
    tb[PROCESSES] = 0;
    processes(last(t, m), tb, n)
}

fn function_section(t: &[u16], tb: &mut [u32; TABLES], dir: &mut [u32]) -> Result<Rules, Refusal>
    requires { (length t.now ≤ 65535) × Bounded tb.old }
    ensures { FunctionSectionRead t.now tb.old dir.old result tb.new dir.new }
{
    let m = count(t, 0, 16)?;
    let n = first(t);
    tb[FUNCTIONS] = n as u32;
    let u = last(t, m);
    let counted = functions(u, tb, dir, n, n, 0, 0)?;
    let main = process_section(last(u, counted.left), tb)?;
    // Stays: a field that holds `main` whole would put its name before two of the three that are read.
    Ok(Rules {
        left: main.left,
        cells: counted.cells,
        weight: main.weight,
    })
}

fn label_section(t: &[u16], tb: &mut [u32; TABLES], dir: &mut [u32]) -> Result<Rules, Refusal>
    requires { (length t.now ≤ 65535) × (domain_count tb.old ≤ 16) }
    ensures { LabelSectionRead t.now tb.old dir.old result tb.new dir.new }
{
    let m = count(t, 1, 64)?;
    let n = first(t);
    tb[LABELS] = n as u32;
    let d = domains(tb);
    let u = last(t, m);
    let j = enter_labels(u, tb, n, label_place(0), d)?;
    function_section(last(u, j), tb, dir)
}

// A rule set after its edition and its number of blocks: how many words are left after it, and main's measures.
// What the tables and the directory held before makes no difference; a directory too short is filled as far as it goes.
pub fn read(t: &[u16], tb: &mut [u32; TABLES], dir: &mut [u32]) -> Result<Rules, Refusal>
    requires { length t.now ≤ 65535 }
    ensures { RulesRead t.now tb.old dir.old result tb.new dir.new }
{
    let m = check_domains(t)?;
    let k = first(t) + 1;
    copy(tb, DOMAINS, &t[..k]);
    label_section(last(t, m), tb, dir)
}
