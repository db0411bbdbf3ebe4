// The array that moves are listed in, by their actions' numbers, and what listing answers (document 01, "Moves, in order"). They are in a file of their
// own, since clauses of the other files name them.
ghost use Rattle.std.specs.Prelude.{◌≤◌, length};

#[derive(Drop)]
pub struct Lister<'a> {
    // The store in which conditions are judged.
    pub store: &'a [u16],
    // What the numbers are written into.
    pub acts: &'a mut [u32],
    // How many are listed.
    pub count: usize,
    pub ghost room: { count ≤ length acts.now },
}

// How many moves are listed, and the words left after their term.
#[derive(Clone, Copy)]
pub struct Moves {
    pub count: usize,
    pub left: usize,
}
