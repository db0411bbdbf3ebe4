// The operations after Admit, as Rattle functions that answer a Result (document 01, "Operations"). Each contract is an equation with
// the specification's operation, for every input.
#![tactic(auto)]

ghost use Rattle.std.specs.Prelude.{◌≡◌, ◌/◌, Ok, Err, leb};
ghost use Rattle.eb3.specs.Reading.{pick};
ghost use Rattle.refusals.specs.declared.Refusal.TheVariants.{Space};

use refusals::Refusal;

pub mod counting;
mod envelope;
pub mod running;
pub mod starting;
pub mod stepping;

// Whether this many bytes have room for n words; if not, refusal 9.
// Stays a number of bytes, and not the bytes: of a buffer in a struct, as `Next` is, a check knows no more than its length once it was lent to be read.
fn room(bytes: usize, n: usize) -> Result<(), Refusal>
    ensures { result ≡ pick (leb n (bytes / 2)) (Ok tt) (Err Space) }
{
    if bytes / 2 < n {
        return Err(Refusal::Space);
    }
    Ok(())
}
