// What every operation begins with, once for all of them: the file is opened, local arrays are chosen for it, the rule set is admitted, and a given term is read
// and checked (document 01, "Operations": each call admits and checks everything itself). What an operation does then is a closure.
// Stays in two forms: an operation on a given term chooses among pairs of sizes, one without among sizes, and each asks another function what is right.
ghost use Rattle.std.specs.Prelude.{◌≡◌, List, ◌*◌, ◌/◌, ◌≤◌, length};
ghost use Rattle.eb3.specs.Admission.{admission};
ghost use Rattle.given.specs.Giving.{given_in};
ghost use Rattle.engine.specs.Enveloping.{OnAnswer, RulesCall, TermCall, TakesTerms};

use admission::admit_in;
use blocks::opened::Blocks;
use blocks::{CONTENT_WORDS, WORDS_OF_8, WORDS_OF_64, open};
use declarations::DIRECTORY;
use given::giving::given_in;
use measures::Limits;
use refusals::Refusal;
use runs::admitted::Admitted;
use tables::layout::TABLES;
use words::front;

// ── from the rule set alone ──

// An opened file, decoded into lent words.
// Stays: that the words have room for the blocks is the clause of `blocks::join`, whose line says why.
// Stays, here and below: that the closure may be called is what every call of one asks, and no type says it.
fn admitted_in<A, F: FnMut(&Admitted, Limits) -> Result<A, Refusal>>(
    file: &Blocks,
    words: &mut [u16],
    then: &mut F,
) -> Result<A, Refusal>
    requires room { 254 * file.now.count ≤ length words.old }
    requires callable { F.IsAlwaysCallable then.old }
    ensures { OnAnswer (RulesCall F.step) then.old (admission file.now.bytes.now) result then.new }
{
    let mut tables = [0u32; TABLES];
    let mut dir = [0u32; DIRECTORY];
    let sizes = admit_in(file.bytes, words, &mut tables, &mut dir, file.count)?;
    let end = CONTENT_WORDS * file.count;
    let rules = Admitted::of(&words[2..end], &tables, &dir, sizes.cells as usize);
    then(&rules, sizes)
}

// Local words for one block, for 8, or for 64, the most that there may be. It is a function apart from its caller, so that a small rule set does not pay for
// a frame with many words.
// Stays: one function for all sizes of a local array, since memory is fixed and there is no heap. Its clause is of const parameters, which each call
// gives as numbers: the check finds it there, and no struct is needed for it.
#[inline(never)]
fn admitted_sized<const WORDS: usize, A, F: FnMut(&Admitted, Limits) -> Result<A, Refusal>>(
    file: &Blocks,
    then: &mut F,
) -> Result<A, Refusal>
    requires room { (254 * file.now.count ≤ WORDS) × (WORDS ≤ 16256) }
    requires callable { F.IsAlwaysCallable then.old }
    ensures { OnAnswer (RulesCall F.step) then.old (admission file.now.bytes.now) result then.new }
{
    let mut words = [0u16; WORDS];
    let r = admitted_in(file, &mut words, then);
    r
}

// Of a rule set: the first refusal of 1 to 8, and nothing is called; or what is then done at it and its sizes.
pub fn with_admitted<A, F: FnMut(&Admitted, Limits) -> Result<A, Refusal>>(
    rules: &[u8],
    then: &mut F,
) -> Result<A, Refusal>
    requires callable { F.IsAlwaysCallable then.old }
    ensures { OnAnswer (RulesCall F.step) then.old (admission rules.now) result then.new }
{
    let file = open(rules)?;
    if file.count <= 1 {
        return admitted_sized::<CONTENT_WORDS, A, F>(&file, then);
    }
    if file.count <= 8 {
        return admitted_sized::<WORDS_OF_8, A, F>(&file, then);
    }
    admitted_sized::<WORDS_OF_64, A, F>(&file, then)
}

// ── from a given term ──

// How many words there are in the local arrays for a given term: for a short one, for one of middle length, and for the longest that there may be.
const SHORT_TERM: usize = 256;

const MIDDLE_TERM: usize = 1024;

const LONGEST_TERM: usize = 8192;

// An opened file and a term, decoded into lent words.
// Stays: the words of the file and those of the term are two arrays, lent apart: they are the caller's, and the length of each depends on what it is for.
// Stays: the two clauses of room are those of `given::giving::given_in`, whose line says why.
fn given_at<A, F: FnMut(&Admitted, &[u16], usize) -> Result<A, Refusal>>(
    file: &Blocks,
    words: &mut [u16],
    ws: &mut [u16],
    term: &[u8],
    then: &mut F,
) -> Result<A, Refusal>
    requires room { (254 * file.now.count ≤ length words.old) × (length term.now / 2 ≤ 8192 → length term.now / 2 ≤ length ws.old) }
    requires callable { TakesTerms (F.pre then.old) }
    ensures { OnAnswer (TermCall F.step) then.old (given_in file.now.bytes.now term.now) result then.new }
{
    let mut tables = [0u32; TABLES];
    let mut dir = [0u32; DIRECTORY];
    let given = given_in(file, words, &mut tables, &mut dir, term, ws)?;
    let s = front(ws, term.len() / 2);
    let end = CONTENT_WORDS * file.count;
    let rules = Admitted::of(&words[2..end], &tables, &dir, given.cells);
    then(&rules, s, given.reach)
}

// Local words for the blocks, for one, for 8, or for 64, the most that there may be, and for the term, for 256, for 1,024, or for 8,192: a small rule set
// and a short term do not pay for clearing large arrays. It is a function apart from its caller, so that they do not pay for a frame with large arrays either.
// Stays: one function for all sizes of the local arrays, as `admitted_sized`.
#[inline(never)]
fn given_sized<
    const WORDS: usize,
    const TERM: usize,
    A,
    F: FnMut(&Admitted, &[u16], usize) -> Result<A, Refusal>,
>(file: &Blocks, term: &[u8], then: &mut F) -> Result<A, Refusal>
    requires room { (254 * file.now.count ≤ WORDS) × (length term.now / 2 ≤ 8192 → length term.now / 2 ≤ TERM) × (WORDS ≤ 16256) × (TERM ≤ 8192) }
    requires callable { TakesTerms (F.pre then.old) }
    ensures { OnAnswer (TermCall F.step) then.old (given_in file.now.bytes.now term.now) result then.new }
{
    let mut words = [0u16; WORDS];
    let mut ws = [0u16; TERM];
    let r = given_at(file, &mut words, &mut ws, term, then);
    r
}

// Of a rule set and a term: the first refusal of 1 to 8 and 10, and nothing is called; or what is then done at both, given the term's words and its reach.
pub fn with_given<A, F: FnMut(&Admitted, &[u16], usize) -> Result<A, Refusal>>(
    rules: &[u8],
    term: &[u8],
    then: &mut F,
) -> Result<A, Refusal>
    requires callable { TakesTerms (F.pre then.old) }
    ensures { OnAnswer (TermCall F.step) then.old (given_in rules.now term.now) result then.new }
{
    let file = open(rules)?;
    if file.count <= 1 && term.len() <= 2 * SHORT_TERM {
        return given_sized::<CONTENT_WORDS, SHORT_TERM, A, F>(&file, term, then);
    }
    if file.count <= 8 && term.len() <= 2 * MIDDLE_TERM {
        return given_sized::<WORDS_OF_8, MIDDLE_TERM, A, F>(&file, term, then);
    }
    if file.count <= 8 {
        return given_sized::<WORDS_OF_8, LONGEST_TERM, A, F>(&file, term, then);
    }
    given_sized::<WORDS_OF_64, LONGEST_TERM, A, F>(&file, term, then)
}
