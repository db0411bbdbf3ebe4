// The refusals as an enum, by document 01's words, and their numbers (document 01, the table under "Operations"; document 02, K1).
// Stays in numbers here, and nowhere else: C hosts get them (host/eb3.h), and the exported functions' contracts say them.
#![tactic(auto)]

ghost use Rattle.std.specs.Prelude.{◌≡◌};
ghost use Rattle.refusals.specs.Numbers.{number};

#[derive(Clone, Copy, Debug, PartialEq, Eq)]
pub enum Refusal {
    Length = 1,
    Block = 2,
    Edition = 3,
    Form = 4,
    Reference = 5,
    Kind = 6,
    Size = 7,
    Breadth = 8,
    Space = 9,
    Term = 10,
    Stranger = 11,
    NotOffered = 12,
    Reader = 13,
}

impl From<Refusal> for u32 {
    ghost from_gives = { λ r k. k ≡ number r };

    fn from(refusal: Refusal) -> u32 {
        refusal as u32
    }
}
