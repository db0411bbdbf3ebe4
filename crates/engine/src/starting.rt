// Start: writes main's unfolding and the memory at the start into lent buffers (document 01, "Operations"; "Memory and the history
// machine").
ghost use Rattle.std.specs.Prelude.{◌≡◌, ◌*◌, ◌≤◌, length};
ghost use Rattle.expressions.specs.Stores.{new_store_length};
ghost use Rattle.engine.specs.Memories.{MemoryStarted, Begun};
ghost use Rattle.eb3.specs.RuleSets.{RuleSet};
ghost use Rattle.eb3.specs.Operations.{sizes_needed, started_at};
ghost use Rattle.admission.specs.Answering.{limits};
ghost use Rattle.engine.specs.Describing.{AdmittedAs};
ghost use Rattle.engine.specs.Starting.{Started, StartDone};

use super::envelope::with_admitted;
use super::room;
use cells::{fill, lay, save};
use expressions::store;
use measures::Limits;
use refusals::Refusal;
use runs::admitted::Admitted;
use tables::layout::AT_START;
use unfold::unfold_main;

// The cells of the start, made in a lent store.
// Stays beside start_store of steps, whose promise is of a store with room for old cells too: here there is room for the new ones alone, in a smaller array.
fn start_store(rules: &Admitted, m: &mut [u16], memory: &mut [u8])
    ensures { MemoryStarted rules.now.functions.words.now rules.now.tables.now rules.now.functions.directory.now (length m.old) rules.now.functions.cells memory.old memory.new }
{
    let functions = &rules.functions;
    lay(functions, m);
    fill(functions, m, AT_START);
    save(m, memory, functions.cells);
}

// A store for at most 64 cells, or for the most that there may be: a small rule set does not pay for clearing a large array.
// Stays two branches: a function with the size as a const parameter would repeat the contract of `start_store` for two lines.
fn start_memory(rules: &Admitted, memory: &mut [u8])
    ensures { MemoryStarted rules.now.functions.words.now rules.now.tables.now rules.now.functions.directory.now new_store_length rules.now.functions.cells memory.old memory.new }
{
    if rules.functions.cells <= store::FEW_CELLS {
        let mut m = [0u16; store::FEW_WORDS];
        start_store(rules, &mut m, memory);
        return;
    }
    let mut m = [0u16; store::NEW_WORDS];
    start_store(rules, &mut m, memory);
}

// The term and the memory of the start.
fn begin(rules: &Admitted, term: &mut [u8], memory: &mut [u8])
    ensures { Begun rules.now.functions.words.now rules.now.tables.now rules.now.functions.directory.now rules.now.functions.cells term.old memory.old term.new memory.new }
{
    let tables = rules.tables;
    unfold_main(rules.functions.words, tables, term);
    start_memory(rules, memory);
}

// At a rule set and its sizes: refusal 9, else the term and the memory of the start.
fn start_admitted(
    rules: &Admitted,
    sizes: Limits,
    term: &mut [u8],
    memory: &mut [u8],
) -> Result<u32, Refusal>
    ensures { (R : RuleSet) → AdmittedAs rules.now R → sizes ≡ limits (sizes_needed R) → Started (started_at term.old memory.old R) result term.new memory.new }
{
    room(term.len(), sizes.reach as usize)?;
    room(memory.len(), rules.functions.cells)?;
    begin(rules, term, memory);
    Ok(sizes.size)
}

// Start: main's unfolding and the memory at the start; or the first refusal of 1 to 9, and nothing is written.
pub fn start(rules: &[u8], term: &mut [u8], memory: &mut [u8]) -> Result<u32, Refusal>
    ensures { StartDone rules.now term.old memory.old result term.new memory.new }
{
    with_admitted(
        rules,
        &mut |admitted: &Admitted, sizes: Limits| start_admitted(admitted, sizes, term, memory),
    )
}
