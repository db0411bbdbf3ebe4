// A store of cells, loaded from a memory or made at the start (document 01, "Memory and the history machine").
ghost use Rattle.std.specs.Prelude.{◌≡◌, length};
ghost use Rattle.steps.specs.Storing.{StoreLoaded, StoreStarted};

use cells::{Functions, fill, lay, load};
use expressions::store;
use tables::layout::AT_START;

// The cells that a memory gives.
// Stays, here and below: that a lent array keeps its length is said by each function that writes into one. It is a fact of what the array was and what it is
// then, and a field of a struct holds facts of one moment.
pub fn load_store(functions: &Functions, m: &mut [u16], memory: &[u8])
    ensures { (length m.new ≡ length m.old) × StoreLoaded functions.now.directory.now memory.now m.old m.new functions.now.width functions.now.count functions.now.cells }
{
    lay(functions, m);
    load(memory, m, store::CELLS, functions.cells);
}

// The cells by the expressions for the empty trace.
pub fn start_store(functions: &Functions, m: &mut [u16])
    ensures { (length m.new ≡ length m.old) × StoreStarted functions.now.words.now functions.now.directory.now m.old m.new functions.now.width functions.now.count functions.now.cells }
{
    lay(functions, m);
    fill(functions, m, AT_START);
}
