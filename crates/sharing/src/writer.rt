// The array that a successor is written into (document 01, "Moves, in order"). It is in a file of its own, since the clauses of beginning.rt name it.
ghost use Rattle.std.specs.Prelude.{◌≤◌, ◌<◌, length};

#[derive(Drop)]
pub struct Writer<'a> {
    // What is written into.
    pub out: &'a mut [u16],
    // The place of the next word.
    pub at: usize,
    // The number of the action of what moved.
    pub action: usize,
    pub ghost room: { (at ≤ length out.now) × (length out.now ≤ 65535) },
    pub ghost small: { action < 1048576 },
}
