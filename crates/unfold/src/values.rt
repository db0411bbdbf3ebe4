// Values of variables: those of a call's and of an action's arguments (document 01, "Blocks and the rule stream", item 5: at most eight
// variables in scope).
ghost use Rattle.std.specs.Prelude.{◌≡◌, ◌+◌, ◌*◌, ◌≤◌, length};
ghost use Rattle.tables.specs.Tables.{from};
ghost use Rattle.unfold.specs.Saying.{argument_at};

use code_numbers::VARIABLE;

// The value of argument j of those at the front of s.
#[tactic(auto, using(crate::proofs::ValueCases::argument_variable, crate::proofs::ValueCases::argument_constant))]
pub fn argument(s: &[u16], vars: &[u16], j: usize) -> u16
    requires { 2 * j + 2 ≤ length s.now }
    ensures { result ≡ argument_at vars.now s.now j }
{
    let c = s[2 * j];
    let v = s[2 * j + 1];
    if c as usize == VARIABLE {
        return vars.get(usize::from(v)).copied().unwrap_or(0);
    }
    v
}

// The values of the first arguments, as many as there are places for them. All of their words are there, so that none is tested for.
#[tactic(auto, using(crate::proofs::ValueCases::values_next))]
pub fn arguments_of(s: &[u16], vars: &[u16], values: &mut [u16])
    requires { 2 * length values.old ≤ length s.now }
    ensures { values.new ≡ from 0 (length values.old) (argument_at vars.now s.now) }
{
    for (j, value) in values.iter_mut().enumerate() {
        *value = argument(s, vars, j);
    }
}
