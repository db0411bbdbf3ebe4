// The cells of a store renewed by an action: the old ones are kept after the new ones, the action's arguments become variables, and all
// cells are computed anew by the expressions for its label (document 01, "Memory and the history machine": now reads new cells, before
// reads old ones).
ghost use Rattle.std.specs.Prelude.{◌≡◌, ◌+◌, ◌*◌, ◌≤◌, length};
ghost use Rattle.expressions.specs.Stores.{now_place};
ghost use Rattle.steps.specs.Storing.{StoreRenewed};
ghost use Rattle.steps.specs.Keeping.{Kept, Given};

use actions::{argument_at, label_of};
use cells::{Functions, copy_cells, fill};
use expressions::store;
use tables::layout::AT_LABELS;

// The c cells copied after themselves, where before reads them.
// Stays, here and below: that a lent array keeps its length is said by each function that writes into one. It is a fact of what the array was and what it is
// then, and a field of a struct holds facts of one moment.
fn keep(m: &mut [u16], c: usize)
    requires { now_place + 2 * c ≤ length m.old }
    ensures { (length m.new ≡ length m.old) × Kept m.old m.new c }
{
    copy_cells(m, store::CELLS, store::CELLS + c, c);
}

// The arguments of an action as variables 1 and 2; variable 0 is a function's parameter.
fn give(m: &mut [u16], code: u32)
    requires { now_place ≤ length m.old }
    ensures { (length m.new ≡ length m.old) × Given m.old m.new code }
{
    m[store::FIRST_ARGUMENT] = (argument_at(code, 0) % 65536) as u16;
    m[store::SECOND_ARGUMENT] = (argument_at(code, 1) % 65536) as u16;
}

// All cells, by the action with this number.
pub fn renew(functions: &Functions, m: &mut [u16], code: u32)
    ensures { (length m.new ≡ length m.old) × StoreRenewed functions.now.words.now functions.now.directory.now m.old m.new functions.now.width functions.now.count functions.now.cells code }
{
    if code == 0 {
        return;
    }
    // never in a store with room for old cells and new ones
    if m.len() < store::CELLS + 2 * functions.cells {
        return;
    }
    keep(m, functions.cells);
    give(m, code);
    let label = label_of(code) as usize;
    // never for a number of an action
    if 63 < label {
        return;
    }
    fill(functions, m, AT_LABELS + label);
}
