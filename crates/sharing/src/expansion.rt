// What a shared term is spelled out of and into, and what is answered then (document 01, "Operations": Run writes the last term). They are in a file of their
// own, since the clauses of expanding.rt name them.
ghost use Rattle.std.specs.Prelude.{◌≤◌, length};

#[derive(Drop)]
pub struct Expansion<'a> {
    // The words of the unfolding, which hold the parts.
    pub unfolding: &'a [u16],
    // What is written into.
    pub out: &'a mut [u16],
    // The place of the next word.
    pub at: usize,
    pub ghost placed: { length unfolding.now ≤ 65503 },
    pub ghost room: { (at ≤ length out.now) × (length out.now ≤ 65535) },
}

#[derive(Clone, Copy)]
pub struct Extent {
    // How many words are left after the term.
    pub left: usize,
    // The place after the words written.
    pub end: usize,
    pub ghost few: { left ≤ 65535 },
}
