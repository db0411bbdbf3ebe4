// How the term of a run is held in the first words of an array, and a move of it made there (document 01, "Moves, in order"; "Operations": Run).
// Stays: that words are at most 65,535 is a clause of each function here, for the reason in successors (docs/DESIGN-PASS.md, "A struct for words").
ghost use Rattle.std.specs.Prelude.{◌≡◌, ◌≤◌, ◌<◌, length};
ghost use Rattle.derivation.specs.Arrays.{SameArrays};
ghost use Rattle.runs.specs.Held.{Short, TakesMove};

use cells::load;
use derivation::Scratch;
use sharing::step;
use steps::moving::{Taken, take_move_in};
use words::front;

/// How a term is held: in its own words, or in few words over those of the start's unfolding, which has no masks.
#[derive(Clone, Copy)]
pub enum Held<'a> {
    InFull,
    Over(&'a [u16]),
}

// Move k of the term in the first n words of ws: its successor is put in the term's place. In full it is built in lent bytes; over the unfolding a move costs
// the parts before it, and a few words written.
// Stays: n is beside ws, and ws, m, out and scratch are lent apart and keep their lengths, as in lib.rt; k is a usize with its bound as a clause, since it is
// the number of a move, as in steps; and an unfolding has at most 65,503 words, as sharing asks.
pub fn take(
    held: Held,
    n: usize,
    k: usize,
    ws: &mut [u16],
    m: &[u16],
    out: &mut [u8],
    scratch: &mut Scratch,
) -> Option<Taken>
    requires { Short held × (length ws.old ≤ 65535) × (k < 65536) }
    ensures words { length ws.new ≡ length ws.old }
    ensures bytes { length out.new ≡ length out.old }
    ensures arrays { SameArrays scratch.old scratch.new }
    ensures moved { TakesMove held.entry n k ws.old m.now out.old scratch.old ws.new out.new result }
{
    match held {
        Held::InFull => {
            let taken = take_move_in(front(ws, n), m, k, scratch, out)?;
            load(out, ws, 0, taken.size);
            Some(taken)
        }
        Held::Over(u) => {
            let moved = step(u, ws, n, m, k, scratch)?;
            Some(Taken {
                action: moved.action,
                size: moved.words,
            })
        }
    }
}
