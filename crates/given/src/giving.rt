// What every operation on a given term begins with: the rule set is admitted, and the term read into words (document 01, "Operations";
// refusals 1 to 8, then 10).
ghost use Rattle.std.specs.Prelude.{◌≡◌, ℕ, ◌*◌, ◌/◌, ◌≤◌, length};
ghost use Rattle.eb3.specs.RuleSets.{RuleSet};
ghost use Rattle.eb3.specs.WellFormedness.{Form};
ghost use Rattle.declarations.specs.Declaring.{Declares};
ghost use Rattle.given.specs.Giving.{TermChecked, GivenDone};

use admission::admit_in;
use blocks::opened::Blocks;
use cells::load;
use declarations::DIRECTORY;
use refusals::Refusal;
use tables::layout::TABLES;
use term_check::given_term;

// The cells of the rule set and the reach of the term.
#[derive(Clone, Copy)]
pub struct Given {
    pub cells: usize,
    pub reach: usize,
}

// The term's words in a lent array, which has room for a term within the limit.
// Stays, here and in `given_in`: that a term within the limit has room is a fact of two lent arrays, the host's bytes and the words of the caller, of which
// each caller goes on with a part of the words. The length that the words keep is a fact of what they were and what they are then.
fn check_term(tb: &[u32], c: usize, term: &[u8], ws: &mut [u16]) -> Result<Given, Refusal>
    requires { length term.now / 2 ≤ 8192 → length term.now / 2 ≤ length ws.old }
    ensures { (length ws.new ≡ length ws.old) × ((R : RuleSet) → Form R → Declares tb.now R → TermChecked R c term.now ws.new result) }
{
    if term.len() % 2 != 0 {
        return Err(Refusal::Term);
    }
    let n = term.len() / 2;
    // more words than a term within the limit has
    if ws.len() < n {
        return Err(Refusal::Term);
    }
    load(term, ws, 0, n);
    let weighed = given_term(&ws[0..n], tb).ok_or(Refusal::Term)?;
    Ok(Given {
        cells: c,
        reach: weighed.reach as usize,
    })
}

// An opened file, decoded into lent words, and a term.
// Stays: the words, the tables, the directory and the term's words are four arrays, lent apart: fixed memory and no heap, and each holds
// another thing.
// Stays: that the words have room for the blocks is the clause of `blocks::join`, whose line says why.
pub fn given_in(
    file: &Blocks,
    words: &mut [u16],
    tables: &mut [u32; TABLES],
    dir: &mut [u32; DIRECTORY],
    term: &[u8],
    ws: &mut [u16],
) -> Result<Given, Refusal>
    requires { (254 * file.now.count ≤ length words.old) × (length term.now / 2 ≤ 8192 → length term.now / 2 ≤ length ws.old) }
    ensures { (length ws.new ≡ length ws.old) × GivenDone file.now.bytes.now term.now words.old file.now.count result words.new tables.new dir.new ws.new }
{
    let sizes = admit_in(file.bytes, words, tables, dir, file.count)?;
    check_term(tables, sizes.cells as usize, term, ws)
}
