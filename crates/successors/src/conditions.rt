// The words of a guard's condition passed over (document 01, "Codes stand before their operands").
// Stays: that words are at most 65,535 is a clause of each function here, for the reason in successors (docs/DESIGN-PASS.md, "A struct for words").
ghost use Rattle.std.specs.Prelude.{◌≡◌, ℕ, ◌≤◌, List, length};
ghost use Rattle.eb3.specs.Expressions.{Cond};
ghost use Rattle.eb3.specs.Scopes.{Scope};
ghost use Rattle.expressions.specs.Answering.{CondAt};

use codes::{EDITION_1, skip};

// The words left after the condition at the front.
// Stays beside `skip` of listing, which calls the same function of `codes`: its contract is of a condition.
pub fn behind_condition(s: &[u16]) -> usize
    requires { length s.now ≤ 65535 }
    ensures { (result ≤ length s.now) × ((P : Scope) (C : Cond) (rest : List ℕ) → CondAt s.now P C rest → result ≡ length rest) }
{
    skip(s, EDITION_1)
}
