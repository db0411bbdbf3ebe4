// The sides that make a move of a parallel (document 01, "Moves, in order"). They are in a file of their own, since the clauses of searching.rt name them.

#[derive(Clone, Copy)]
pub enum Located {
    /// The left side alone makes its move of this number.
    Left(usize),
    /// The right side alone.
    Right(usize),
    /// Both together: the left's move, the right's.
    Both(usize, usize),
    /// There is no move k: what is left of k.
    Passed(usize),
}
