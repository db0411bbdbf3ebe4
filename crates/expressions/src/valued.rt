// What an evaluation of data answers (document 01, "Values and conditions").
ghost use Rattle.std.specs.Prelude.{◌<◌};

/// The value of a data expression as a word, and how many words are left after the expression.
#[derive(Clone, Copy)]
pub struct Valued {
    pub value: usize,
    pub left: usize,
    pub ghost small: { value < 65536 },
}
