// A rule stream's domains, labels and functions, checked, with the tables that later sections are read by and the
// directory of where each function's expressions are (document 01, "Blocks and the rule stream", items 2 to 4; refusals
// 4 and 5).
#![tactic(auto)]

ghost use Rattle.std.specs.Prelude.{◌≡◌, List, [], ◌∷◌, ◌++◌, ℕ, ◌+◌, ◌-◌, ◌*◌, ◌%◌, ◌≤◌, ◌<◌, drop, take, get_or, set, length};
ghost use Rattle.std.proofs.Math.Seq.{paste};
ghost use Rattle.std.specs.Fn.{FnReturnsAt};
ghost use Rattle.eb3.specs.Reading.{Reader, number_of, counted};
ghost use Rattle.eb3.specs.RuleReading.{read_domains};
ghost use Rattle.words.specs.Checking.{Checked, checked};
ghost use Rattle.words.specs.Ends.{Ends};
ghost use Rattle.tables.specs.Layout.{label_count, label_words};
ghost use Rattle.declarations.specs.Entering.{Entered, CellsBound};
ghost use Rattle.declarations.specs.Directory.{row_width};
ghost use Rattle.declarations.specs.Noting.{LabelsNoted, ExpressionsNoted, FunctionNoted, FunctionsNoted};

use expression_check::{Scope, check_data};
use refusals::Refusal;
use tables::layout::{AT_LABELS, AT_START, FIRST_CELL, MOST_LABELS, label_place_from};
use tables::{domains, label_row, labels, size_of};
use words::{count, first, last, number_or_refusal};

// The most functions of a rule set.
const MOST_FUNCTIONS: usize = 16;

/// How many numbers a directory has: a row for each function, of those before its labels' and one for each label, of the most functions and labels.
pub const DIRECTORY: usize = (AT_LABELS + MOST_LABELS) * MOST_FUNCTIONS;

// How many words are left after some functions, and how many cells they have.
// Stays, here and as `Weighed` in rule_terms: a struct for what is left and one thing more. One of both would be generic, and name neither cells nor weight.
#[derive(Clone, Copy)]
pub struct Counted {
    pub left: usize,
    pub cells: usize,
}

// Words, from the place at on.
// Stays with a place, and not with a part of the table lent: what its callers ensure is of the whole table, which they would first have to join of its parts.
#[tactic(auto, using(crate::proofs::Cases::copy_more, words::specs::Laws::Checking::copy_len))]
pub fn copy(tb: &mut [u32], at: usize, s: &[u16])
    requires { at + length s.now ≤ length tb.old }
    ensures { tb.new ≡ paste tb.old at s.now (length s.now) }
{
    for (i, &w) in s.iter().enumerate() {
        tb[at + i] = w as u32;
    }
}

// ── domains, and the parameters of labels and processes ──

// A count from lo to hi, and that many of a kind, each checked by `one`.
// Stays: that the closure may always be called is what every call of one asks, and no type says it.
fn counted_row<F: Fn(&[u16]) -> Result<usize, Refusal>>(
    t: &[u16],
    lo: usize,
    hi: usize,
    one: F,
) -> Result<usize, Refusal>
    requires { F.IsAlwaysCallable one }
    ensures { (f : Reader ℕ) → Ends f → ((s : List ℕ) (r : Checked) → FnReturnsAt F.Fn one s r → r ≡ checked (f s)) → result ≡ checked (counted lo hi f t.now) }
{
    let m = count(t, lo, hi)?;
    let n = first(t);
    let row = last(t, m);
    let mut left = row.len();
    for _ in 0..n {
        left = one(last(row, left))?;
    }
    Ok(left)
}

pub fn check_domains(t: &[u16]) -> Result<usize, Refusal>
    ensures { result ≡ checked (read_domains t.now) }
{
    counted_row(t, 1, 16, |u| count(u, 1, 64))
}

// The parameters of a label or a process: a count up to hi, and that many numbers of domains, each below d.
pub fn parameters(t: &[u16], hi: usize, d: usize) -> Result<usize, Refusal>
    ensures { result ≡ checked (counted 0 hi (number_of 5 d) t.now) }
{
    counted_row(t, 0, hi, |u| number_or_refusal(u, Refusal::Reference, d))
}

// ── labels ──

// n labels, entered from the place at on.
// Stays with the place and n, and not the part of the table lent: it is public, and its contract says of the whole table what it is then.
pub fn enter_labels(
    t: &[u16],
    tb: &mut [u32],
    n: usize,
    at: usize,
    d: usize,
) -> Result<usize, Refusal>
    requires { at + label_words * n ≤ length tb.old }
    ensures { Entered t.now tb.old n at d result tb.new }
{
    let mut left = t.len();
    for i in 0..n {
        let u = last(t, left);
        left = parameters(u, 2, d)?;
        copy(tb, label_place_from(at, i), &u[..first(u) + 1]);
    }
    Ok(left)
}

// ── functions ──

// The low 32 bits of x, at a place of the directory; nothing where there is no such place, so that a caller with no use
// for a directory lends none.
fn note(dir: &mut [u32], at: usize, x: usize)
    ensures { dir.new ≡ set dir.old at (x % 4294967296) }
{
    if at < dir.len() {
        dir[at] = (x % 4294967296) as u32;
    }
}

// What functions are read with: the tables, which have at most 64 labels, and how many functions there are.
#[derive(Clone, Copy)]
struct Context<'a> {
    tables: &'a [u32],
    functions: usize,
    ghost few: { label_count tables.now ≤ 64 },
}

// Stays: t, dir and i are three parameters of the methods, with the bound of i or of a place as a clause. Every call is handed other words, and the directory
// is lent on, so that a struct of the three would be made anew at each call.
impl Context<'_> {
    // The expressions of function i for the labels, noted from the place at on.
    #[tactic(auto, using(crate::proofs::LaterCases::sofar_start, crate::proofs::LaterCases::sofar_next))]
    fn later(&self, t: &[u16], dir: &mut [u32], i: usize, at: usize) -> Result<usize, Refusal>
        requires { at < 4294967296 }
        ensures { LabelsNoted self.now.tables.now self.now.functions i (label_count self.now.tables.now) t.now dir.old at result dir.new }
    {
        let k = labels(self.tables);
        let mut left = t.len();
        for l in 0..k {
            note(dir, at + l, left);
            let c = Scope {
                variables: 1 + label_row(self.tables, l).len(),
                now: i,
                before: self.functions,
            };
            left = check_data(last(t, left), c)?;
        }
        Ok(left)
    }

    // The expression of function i for the empty trace, and those for the labels, noted from the place at on.
    fn expressions(&self, t: &[u16], dir: &mut [u32], i: usize, at: usize) -> Result<usize, Refusal>
        requires { at < 4294967000 }
        ensures { ExpressionsNoted self.now.tables.now self.now.functions i t.now dir.old at result dir.new }
    {
        note(dir, at, t.len());
        let c = Scope {
            variables: 1,
            now: i,
            before: 0,
        };
        let m = check_data(t, c)?;
        self.later(last(t, m), dir, i, at + 1)
    }

    // Where function i's row begins in the directory.
    fn row_place(&self, i: usize) -> usize
        requires { i < 65536 }
        ensures { (result ≡ row_width (label_count self.now.tables.now) * i) × (result ≤ 4390912) }
    {
        (AT_LABELS + labels(self.tables)) * i
    }

    // Function i, and its row of the directory: its parameter's domain, whose elements are its cells, which begin where
    // those of the functions before it end, and its expressions.
    fn function(
        &self,
        t: &[u16],
        dir: &mut [u32],
        i: usize,
        begin: usize,
    ) -> Result<Counted, Refusal>
        requires { i < 65536 }
        ensures { FunctionNoted self.now.tables.now self.now.functions i t.now dir.old (row_width (label_count self.now.tables.now) * i) begin result dir.new × CellsBound result 1 }
    {
        let at = self.row_place(i);
        let m = number_or_refusal(t, Refusal::Reference, domains(self.tables))?;
        let d = first(t);
        let cells = size_of(self.tables, d);
        note(dir, at, cells);
        note(dir, at + FIRST_CELL, begin);
        let left = self.expressions(last(t, m), dir, i, at + AT_START)?;
        Ok(Counted { left, cells })
    }
}

// k functions of n, from function i on, whose cells begin at begin.
// Stays: that there are at most 64 labels becomes a field of `Context` here.
pub fn functions(
    t: &[u16],
    tb: &[u32],
    dir: &mut [u32],
    n: usize,
    k: usize,
    i: usize,
    begin: usize,
) -> Result<Counted, Refusal>
    requires { (k + i < 65536) × (label_count tb.now ≤ 64) × (begin ≤ i * 4294967296) }
    ensures { FunctionsNoted tb.now n k i t.now dir.old begin result dir.new × CellsBound result k }
{
    let context = Context {
        tables: tb,
        functions: n,
    };
    let mut left = t.len();
    let mut cells = 0;
    for j in i..i + k {
        let one = context.function(last(t, left), dir, j, begin + cells)?;
        left = one.left;
        cells += one.cells;
    }
    Ok(Counted { left, cells })
}
