// What a term is unfolded with (document 01, "Unfolding, size and breadth"). In a file of its own, since clauses of the other files name it.
ghost use Rattle.std.specs.Prelude.{◌≤◌, length};

use tables::Context;

#[derive(Clone, Copy)]
pub struct Scope<'a> {
    // The stream of the rule set.
    pub words: &'a [u16],
    // Its tables, and the values of the variables.
    pub context: Context<'a>,
    // The process whose term it is.
    pub process: usize,
    pub ghost short: { length words.now ≤ 65535 },
    pub ghost low: { process ≤ 32 },
}
