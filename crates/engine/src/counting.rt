// Count: how many moves a given term has at a given memory (document 01, "Operations").
// Stays: that words are at most 65,535 is a clause, for the reason in successors (docs/DESIGN-PASS.md, "A struct for words").
ghost use Rattle.std.specs.Prelude.{◌≡◌, ◌*◌, ◌/◌, ◌≤◌, length};
ghost use Rattle.eb3.specs.Terms.{Term};
ghost use Rattle.eb3.specs.RuleSets.{RuleSet};
ghost use Rattle.eb3.specs.Memory.{cell_room};
ghost use Rattle.eb3.specs.Operations.{cells_needed, listed, counted_at, count};
ghost use Rattle.engine.specs.Describing.{DescribedBy};
ghost use Rattle.engine.specs.Counting.{counted_as};

use super::envelope::with_given;
use super::room;
use expressions::store;
use refusals::Refusal;
use runs::admitted::Admitted;
use steps::counting::count_moves;
use steps::storing::load_store;

// The moves of the term s at the cells of a memory that has enough.
fn count_at(rules: &Admitted, s: &[u16], memory: &[u8]) -> u32
    requires { length s.now ≤ 65535 }
    ensures { (R : RuleSet) (E : Term) → DescribedBy rules.now R E s.now → rules.now.functions.cells ≤ cell_room memory.now → result ≡ length (listed R E memory.now) }
{
    let mut m = [0u16; store::WORDS];
    load_store(&rules.functions, &mut m, memory);
    (count_moves(s, &m) % 4294967296) as u32
}

// At a rule set and a term: refusal 9, else the number of moves.
fn count_given(rules: &Admitted, s: &[u16], memory: &[u8]) -> Result<u32, Refusal>
    requires { length s.now ≤ 65535 }
    ensures { (R : RuleSet) (E : Term) → DescribedBy rules.now R E s.now → result ≡ counted_as (counted_at R E memory.now) }
{
    room(memory.len(), rules.functions.cells)?;
    Ok(count_at(rules, s, memory))
}

// Count: the number of moves, or the first refusal of 1 to 8, 10 and 9.
// Stays: the rule set, the term and the memory come one by one, as a host has them.
pub fn count(rules: &[u8], term: &[u8], memory: &[u8]) -> Result<u32, Refusal>
    ensures { result ≡ counted_as (count rules.now term.now memory.now) }
{
    with_given(
        rules,
        term,
        &mut |admitted: &Admitted, s: &[u16], _: usize|
            requires { length s.now ≤ 65535 }
        { count_given(admitted, s, memory) },
    )
}
