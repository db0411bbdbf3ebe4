// What a walk to move k answers, made of the numbers in the arrays that are lent to it (document 01, "Moves, in order").
ghost use Rattle.std.specs.Prelude.{◌≡◌, ◌+◌, ◌-◌, ◌≤◌, ◌<◌, [], ◌∷◌, length};
ghost use Rattle.derivation.specs.declared.arrays.Derivation.TheVariants.{At, Behind};
ghost use Rattle.derivation.specs.Lending.{Kept, answered};
ghost use Rattle.derivation.specs.Arms.{Decided};

use super::arrays::{Arrays, Walked};

// Stays, here and below: the bound of `left` is a clause: it is a number of its own until the arrays hold it, with its bound.
// Stays: that the arrays stay the same and keep their lengths (`Kept`) is a fact of what they were and what they are then, which no field of a struct holds.
impl Arrays<'_> {
    // The term has no move k, and `left` words come after it.
    pub fn passing(&mut self, left: usize) -> Walked
        requires { left ≤ 65535 }
        ensures kept { Kept self.old self.new }
        ensures path { self.new.path.now ≡ self.old.path.now }
        ensures passed { answered self.new result ≡ Behind self.old.k left }
    {
        self.left = left;
        Walked::Passed
    }

    // One move, whose path is empty: it begins at the end.
    pub fn single(&mut self, left: usize) -> Walked
        requires { left ≤ 65535 }
        ensures kept { Kept self.old self.new }
        ensures path { self.new.path.now ≡ self.old.path.now }
        ensures one { (self.old.k ≡ 0 → answered self.new result ≡ At (length self.old.path.now)) × (1 ≤ self.old.k → answered self.new result ≡ Behind (self.old.k - 1) left) }
    {
        if self.k == 0 {
            self.at = self.path.len();
            return Walked::Found;
        }
        self.k = self.k - 1;
        self.passing(left)
    }

    // Writes a decision before the path that was found.
    // Stays, here and in decide_right: c is the word that is written, so that an enum of the decisions would only be turned back into it.
    pub fn decide(&mut self, c: u16, walked: Walked) -> Walked
        ensures kept { Kept self.old self.new }
        ensures decided { Decided (c ∷ []) (answered self.old walked) self.old.path.now self.new.path.now (answered self.new result) }
    {
        match walked {
            Walked::Found => {
                if self.at == 0 {
                    return Walked::Full;
                }
                self.at = self.at - 1;
                self.path[self.at] = c;
                Walked::Found
            }
            _ => walked,
        }
    }

    // Writes a decision that goes on on the right, and the left operand's size after it.
    pub fn decide_right(&mut self, c: u16, n: u16, walked: Walked) -> Walked
        ensures kept { Kept self.old self.new }
        ensures decided { Decided (c ∷ n ∷ []) (answered self.old walked) self.old.path.now self.new.path.now (answered self.new result) }
    {
        let q = self.decide(n, walked);
        self.decide(c, q)
    }
}
