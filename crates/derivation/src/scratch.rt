// The arrays that a step works in (document 01, "Moves, in order"; "Operations": Run), which sharing, steps and runs take from here. They are in a file of
// their own, since the clauses there name them.
ghost use Rattle.std.specs.Prelude.{◌≤◌, length};

/// Lent arrays for what a step finds on its way. What they hold before does not count: they are lent, so that a run clears them
/// once and not at every move.
#[derive(Drop)]
pub struct Scratch<'a> {
    /// For the path of a move.
    pub path: &'a mut [u16],
    /// For the numbers that finding a path takes.
    pub acts: &'a mut [u32],
    /// For the words of the part of the term that moves, spelled out, where the term is held as parts of the start's unfolding.
    pub mid: &'a mut [u16],
    pub ghost short_path: { length path.now ≤ 65535 },
    pub ghost few_acts: { length acts.now ≤ 131072 },
    pub ghost short_mid: { length mid.now ≤ 65535 },
}
