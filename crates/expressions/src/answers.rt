// What an evaluation of a condition answers, in one number (document 01, "Values and conditions"): 1 where the condition holds and 0 where it does not, and
// 65,536 times how many words are left after the condition. Only the functions here make such a number and take it apart.
// Stays one number: measured, a condition of 1,000 ands takes 12 % more instructions as a struct, and each level 16 bytes more stack
// (docs/DESIGN-PASS.md, "Answers packed in one number").
ghost use Rattle.std.specs.Prelude.{◌≡◌, ◌<◌, ◌/◌, ◌%◌};
ghost use Rattle.expressions.specs.Answering.{answer};

// The answer of a truth, 1 or 0, and the words left.
#[tactic(auto, using(crate::proofs::Words::packed))]
pub(crate) fn pack(v: usize, left: usize) -> usize
    requires { (v < 65536) × (left < 65536) }
    ensures { (result ≡ answer v left) × (result < 4294967296) }
{
    v + 65536 * left
}

// Whether the condition holds: 1 or 0.
pub fn truth_of(c: usize) -> usize
    ensures { result ≡ c % 65536 }
{
    c % 65536
}

// How many words are left after the condition.
pub fn words_left(c: usize) -> usize
    ensures { result ≡ c / 65536 }
{
    c / 65536
}
