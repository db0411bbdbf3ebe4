// Admit, and what every operation begins with: a file of blocks decoded, its rule set read and judged (document 01, "Operations"). Each
// contract is an equation with the specification's operation, for every input.
#![tactic(auto)]

ghost use Rattle.std.specs.Prelude.{◌≡◌, Bool, List, [], ◌∷◌, ◌++◌, ℕ, ◌+◌, ◌*◌, ◌≤◌, ◌<◌, length, take, drop};
ghost use Rattle.eb3.specs.RuleReading.{read_rules};
ghost use Rattle.eb3.specs.Blocks.{stream};
ghost use Rattle.eb3.specs.Operations.{admit};
ghost use Rattle.rules.specs.Sections.{rules_weighed};
ghost use Rattle.measures.specs.Weighing.{measure};
ghost use Rattle.eb3.specs.Judging.{judged};
ghost use Rattle.admission.specs.Answering.{admitted, read_whole};
ghost use Rattle.admission.specs.Admitting.{WordsAdmitted, FileAdmitted};

use blocks::opened::Blocks;
use blocks::{CONTENT_WORDS, WORDS_OF_8, WORDS_OF_64, join, open};
use measures::{Limits, Weight};
use refusals::Refusal;
use rules::read;
use tables::layout::TABLES;
use tables::zeros;
use words::last;

// Refusal 7, then 8; else the sizes.
fn judge(cells: u32, w: Weight) -> Result<Limits, Refusal>
    ensures { result ≡ admitted (judged cells (measure w)) }
{
    if Limits::REACH < w.reach {
        return Err(Refusal::Size);
    }
    if Limits::BREADTH < w.breadth {
        return Err(Refusal::Breadth);
    }
    Ok(Limits::new(cells, w))
}

// The stream's words after its first two: sections 2 to 5, the end, and main's measures; with the tables and the directory that
// later steps go by. An empty directory will do where there are none.
fn admit_words(t: &[u16], tables: &mut [u32; TABLES], dir: &mut [u32]) -> Result<Limits, Refusal>
    requires { length t.now ≤ 16254 }
    ensures { WordsAdmitted t.now dir.old result tables.new dir.new }
{
    let r = read(t, tables, dir)?;
    if CONTENT_WORDS <= r.left {
        return Err(Refusal::Form);
    }
    if !zeros(last(t, r.left)) {
        return Err(Refusal::Form);
    }
    judge(r.cells as u32, r.weight)
}

// n blocks, decoded into lent words.
// Stays: the words, the tables and the directory are three arrays, lent apart: the library has no heap and fixed memory, and a caller that
// wants no directory lends an empty one.
pub fn admit_in(
    rules: &[u8],
    words: &mut [u16],
    tables: &mut [u32; TABLES],
    dir: &mut [u32],
    n: usize,
) -> Result<Limits, Refusal>
    requires { (length rules.now ≡ 512 * n) × (254 * n ≤ length words.old) × (1 ≤ n) × (n ≤ 64) }
    ensures { FileAdmitted rules.now words.old dir.old n result words.new tables.new dir.new }
{
    join(rules, words, n);
    let end = CONTENT_WORDS * n;
    admit_words(&words[2..end], tables, dir)
}

// Local words for one block, for 8, or for 64, the most that there may be: a small rule set does not pay for clearing a large array. It is a function apart
// from its caller, so that it does not pay for a frame with one either.
// Stays: one function for all sizes of a local array, since memory is fixed and there is no heap. Its clause is of the const parameter, which each call
// gives as a number: the check finds it there, and no struct is needed for it.
#[inline(never)]
fn admit_sized<const WORDS: usize>(file: &Blocks) -> Result<Limits, Refusal>
    requires { (254 * file.now.count ≤ WORDS) × (WORDS ≤ 16256) }
    ensures { result ≡ read_whole (drop 2 (stream file.now.bytes.now)) }
{
    let mut words = [0u16; WORDS];
    let mut tables = [0u32; TABLES];
    let mut none = [0u32; 0];
    let r = admit_in(file.bytes, &mut words, &mut tables, &mut none, file.count);
    r
}

// Admit: C, G, W and the start term's size, or the first refusal of 1 to 8.
// Stays, with its choice among the sizes: the other operations (engine/src/envelope.rt) have arrays for the directory and a term besides.
pub fn admit(rules: &[u8]) -> Result<Limits, Refusal>
    ensures { result ≡ admitted (admit rules.now) }
{
    let file = open(rules)?;
    if file.count <= 1 {
        return admit_sized::<CONTENT_WORDS>(&file);
    }
    if file.count <= 8 {
        return admit_sized::<WORDS_OF_8>(&file);
    }
    admit_sized::<WORDS_OF_64>(&file)
}
