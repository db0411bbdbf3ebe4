// Whether a running term is without masks (document 01, "Moves, in order": labels in a parallel's mask move together).
// Stays: that words are at most 65,535 is a clause of each function here, for the reason in successors (docs/DESIGN-PASS.md, "A struct for words").
ghost use Rattle.std.specs.Prelude.{◌≤◌, length, IfSome};
ghost use Rattle.sharing.specs.Masks.{MaskFree, Shareable};

use actions::behind_action;
use code_numbers::{ACTION, CHOICE, GUARD, PARALLEL, SEQUENCE, STAR};
use listing::behind_mask;
use successors::conditions::behind_condition;
use tables::mask_zero;
use words::{behind, first, last};

// Operands that are deeper to the left in sequences and parallels are not shared. Where such an operand moves for the first time its end is looked for at
// every level, which must not cost the square of a depth that nothing else bounds.
const DEEPEST: usize = 16;

// Whether a run may hold its term in few words over the words of this one.
pub fn shareable(s: &[u16]) -> bool
    requires { length s.now ≤ 65535 }
    ensures { Shareable s.now result }
{
    mask_free(s, DEEPEST).is_some()
}

// The words left after the term at the front, where no label is in a mask of it and its operands are no deeper to the left than `levels` levels. The last
// operand is gone through by the loop, so that however many follow one another, they cost no stack.
// Stays a `loop`: how far each turn goes is read from the term, so there is no range to go through.
fn mask_free(mut s: &[u16], levels: usize) -> Option<usize>
    requires { length s.now ≤ 65535 }
    ensures { IfSome result (MaskFree s.now) }
{
    if levels == 0 {
        return None;
    }
    loop {
        let t = behind(s);
        match first(s) {
            ACTION => return Some(behind_action(t)),
            SEQUENCE => s = last(t, mask_free(t, levels - 1)?),
            CHOICE => s = last(t, mask_free(t, levels)?),
            STAR => s = t,
            PARALLEL => {
                if !mask_zero(t) {
                    return None;
                }
                let e = behind_mask(t);
                s = last(e, mask_free(e, levels - 1)?);
            }
            GUARD => s = last(t, behind_condition(t)),
            _ => return Some(t.len()),
        }
    }
}
