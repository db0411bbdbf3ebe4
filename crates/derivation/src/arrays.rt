// What a walk over a term reads and writes on its way to move k (document 01, "Moves, in order"), and what it answers. They are in a file of their own, since
// the clauses of lib.rt and answering.rt name them.
ghost use Rattle.std.specs.Prelude.{◌≤◌, ◌<◌, length};

/// What a walk answers; the numbers that belong to it are in the arrays.
// Stays without its numbers, here and in sharing's finding.rt and seeking.rt, with the arm that hands on `Full` by hand: measured, an enum with the numbers, or
// an Option of the words left, takes up to 1.10 of the instructions, and a Result of a number and an enum comes back in memory (docs/DESIGN-PASS.md, "Answers
// packed in one number").
#[derive(Clone, Copy)]
pub enum Walked {
    /// The path was found: it begins at `at`.
    Found,
    /// The term has no move k: `k` is less by its moves, and `left` words are left after it.
    Passed,
    /// There was no room.
    Full,
}

/// The same with its numbers, for who has no `Arrays`: made once, after the walk.
#[derive(Clone, Copy)]
pub enum Derivation {
    /// The path begins at this place.
    At(usize),
    /// There is no move k: what is left of k, and how many words are left after the term.
    Behind { k: usize, left: usize },
    /// There was no room.
    NoRoom,
}

#[derive(Drop)]
pub struct Arrays<'a> {
    // The store in which conditions are judged.
    pub store: &'a [u16],
    // The path is written at its end.
    pub path: &'a mut [u16],
    // Room for listing moves at parallels with a mask.
    pub acts: &'a mut [u32],
    // The number of the move, less the moves that were passed.
    pub k: usize,
    // Where the path that was found begins.
    pub at: usize,
    // How many words are left after a term without the move.
    pub left: usize,
    pub ghost few: { (length path.now ≤ 65535) × (length acts.now ≤ 131072) },
    pub ghost due: { k < 131072 },
    pub ghost within: { (at ≤ length path.now) × (left ≤ 65535) },
}
