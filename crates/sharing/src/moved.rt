// What a move of a shared term leaves (document 01, "Moves, in order"). It is in a file of its own, since the clauses of lib.rt name it.
ghost use Rattle.std.specs.Prelude.{◌≤◌, ◌<◌};

#[derive(Clone, Copy)]
pub struct Moved {
    // How many words the term is held in then.
    pub words: usize,
    // The number of the action.
    pub action: u32,
    pub ghost few: { words ≤ 65535 },
    pub ghost small: { action < 1048576 },
}
