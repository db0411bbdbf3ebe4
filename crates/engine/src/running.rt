// Run: from the start by a whole list of move numbers; numbers that are not offered are counted and skipped (document 01, "Operations"), and
// each is counted at its card reader (document 02, K1). The rule set is admitted once.
ghost use Rattle.std.specs.Prelude.{◌≡◌, ◌*◌, ◌≤◌, length};
ghost use Rattle.eb3.specs.RuleSets.{RuleSet};
ghost use Rattle.eb3.specs.Operations.{sizes_needed, ran_at};
ghost use Rattle.admission.specs.Answering.{limits};
ghost use Rattle.engine.specs.Describing.{AdmittedAs};
ghost use Rattle.engine.specs.Running.{Ran, RunDone};

use super::envelope::with_admitted;
use super::room;
use measures::Limits;
use readers::list::lets_through;
use readers::{COUNTS, add_table};
use refusals::Refusal;
use runs::admitted::{Admitted, Course};
use runs::main_process::{Totals, run_main};

// At a rule set and its sizes. What was counted at each reader is added to the table at the end. It is a function apart from its caller, so that admission does
// not pay for the frame of a run.
// Stays, here and below: the table, the term, the memory and the spare buffer are lent apart, as in runs::main_process (its `finish` says why).
#[inline(never)]
fn run_admitted(
    rules: &Admitted,
    sizes: Limits,
    list: &[u8],
    table: &mut [u8],
    term: &mut [u8],
    memory: &mut [u8],
    spare: &mut [u8],
    cells: &[u8],
) -> Result<Totals, Refusal>
    ensures { (R : RuleSet) → AdmittedAs rules.now R → sizes ≡ limits (sizes_needed R) → Ran (ran_at list.now table.old term.old memory.old spare.old cells.now R) spare.old result table.new term.new memory.new spare.new }
{
    let c = rules.functions.cells;
    let reach = sizes.reach as usize;
    room(term.len(), reach)?;
    room(memory.len(), c)?;
    room(spare.len(), reach)?;
    room(cells.len(), c)?;
    if !lets_through(list, table) {
        return Err(Refusal::Reader);
    }
    let course = Course {
        rules: *rules,
        reach,
        list,
    };
    let mut by_reader = [0u32; COUNTS];
    let totals = run_main(&course, term, memory, spare, &mut by_reader);
    add_table(table, &by_reader);
    Ok(totals)
}

// Run: what the history machine ends with, in the lent term and memory, and its counts by reader added to the lent table; or the first
// refusal of 1 to 9 and then 13, and nothing is written. Of the two spare buffers, one for a term and one for cells, only the first is
// written, and only in whole words.
pub fn run(
    rules: &[u8],
    list: &[u8],
    table: &mut [u8],
    term: &mut [u8],
    memory: &mut [u8],
    spare: &mut [u8],
    cells: &[u8],
) -> Result<Totals, Refusal>
    ensures { RunDone rules.now list.now table.old term.old memory.old spare.old cells.now result table.new term.new memory.new spare.new }
{
    with_admitted(
        rules,
        &mut |admitted: &Admitted, sizes: Limits| run_admitted(
            admitted, sizes, list, table, term, memory, spare, cells,
        ),
    )
}
