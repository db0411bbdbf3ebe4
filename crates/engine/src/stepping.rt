// Move and Present: one step from a given term and memory, into lent buffers (document 01, "Operations"). Both are one operation, which is asked
// for the move of a number or for the first move whose action is an event.
// Stays: that words are at most 65,535 is a clause of each function here, for the reason in successors (docs/DESIGN-PASS.md, "A struct for words").
ghost use Rattle.std.specs.Prelude.{◌≡◌, List, ℕ, ◌*◌, ◌/◌, ◌%◌, ◌≤◌, length};
ghost use Rattle.std.proofs.Math.Option.{Option};
ghost use Rattle.eb3.specs.Terms.{Term, Action};
ghost use Rattle.eb3.specs.Moves.{Move, moves};
ghost use Rattle.eb3.specs.Scopes.{Scope};
ghost use Rattle.eb3.specs.Operations.{move, present};
ghost use Rattle.actions.specs.Codes.{action_code, Small};
ghost use Rattle.listing.specs.Listing.{holding};
ghost use Rattle.steps.specs.Counting.{Whole};
ghost use Rattle.given.specs.Asking.{Chooses};
ghost use Rattle.engine.specs.Stepping.{step_as, SameBuffers, Done, move_at, stepped, SteppedFrom, SteppedAt, Steps};

use super::envelope::with_given;
use super::room;
use actions::{argument_at, argument_count, label_of};
use cells::save;
use expressions::store;
use given::asking::{Request, Wanted, ask};
use refusals::Refusal;
use runs::admitted::Admitted;
use steps::counting::first_move;
use steps::moving::take_move;
use steps::renewing::renew;
use steps::storing::load_store;

/// A visible action: its label, how many arguments it has, and the two that it may have, 0 where there is none.
// Stays with a count: C hosts get one (`Moved` of cabinet), which is how many arguments the action has. Of two Options it would be how many of the
// first two there are, which is the same only where no action has three: Move and Present would have to promise that, too.
#[derive(Clone, Copy)]
pub struct Visible {
    pub label: u32,
    pub arguments: u32,
    pub first: u32,
    pub second: u32,
}

/// The successor's size in words, and the action that led to it; none is the internal one.
#[derive(Clone, Copy)]
pub struct Step {
    pub size: u32,
    pub action: Option<Visible>,
}

/// What Move and Present are asked: of a term and a memory, for which move.
#[derive(Clone, Copy)]
pub struct Asked<'a> {
    pub term: &'a [u8],
    pub memory: &'a [u8],
    pub request: Request<'a>,
}

/// Where the successor and the memory after a step are written.
#[derive(Drop)]
pub struct Next<'a> {
    pub term: &'a mut [u8],
    pub memory: &'a mut [u8],
}

// ── the answer ──

// The answer for the action with this number and a successor of this size.
fn tell(code: u32, size: usize) -> Step
    ensures { (ρ : Action) → Small ρ → code ≡ action_code ρ → result ≡ step_as ρ (size % 4294967296) }
{
    let size = (size % 4294967296) as u32;
    if code == 0 {
        return Step { size, action: None };
    }
    Step {
        size,
        action: Some(Visible {
            label: label_of(code),
            arguments: argument_count(code),
            first: argument_at(code, 0),
            second: argument_at(code, 1),
        }),
    }
}

// ── the step ──

// Move k from a loaded store, into buffers with room.
// Stays, here and below: that the buffers stay the same (`SameBuffers`) is a fact of what they were and what they are then, which no field of a struct holds.
fn step_from(
    rules: &Admitted,
    s: &[u16],
    m: &mut [u16],
    k: usize,
    next: &mut Next,
) -> Result<Step, Refusal>
    requires { length s.now ≤ 65535 }
    ensures buffers { SameBuffers next.old next.new }
    ensures done { SteppedFrom rules.now s.now m.old k next.old.term.now next.old.memory.now result next.new.term.now next.new.memory.now }
{
    let functions = &rules.functions;
    let taken = take_move(s, m, k, next.term).ok_or(Refusal::NotOffered)?;
    renew(functions, m, taken.action);
    save(m, next.memory, functions.cells);
    Ok(tell(taken.action, taken.size))
}

// The number of the move that is wanted, at a loaded store, or none where no move has the wanted action.
fn find(s: &[u16], m: &[u16], wanted: Wanted) -> Option<usize>
    requires { length s.now ≤ 65535 }
    ensures { (P : Scope) (E : Term) (choose : List Move → Option Move) → Whole s.now P E → Chooses wanted choose → move_at (moves (holding m.now) E) result ≡ choose (moves (holding m.now) E) }
{
    match wanted {
        Wanted::Number(k) => Some(k),
        Wanted::Action(code) => first_move(s, m, code),
    }
}

// From the cells of a memory, into buffers with room. It is a function apart from its caller, so that admission does not pay for a frame with a store.
#[inline(never)]
fn step_at(
    rules: &Admitted,
    s: &[u16],
    memory: &[u8],
    wanted: Wanted,
    next: &mut Next,
) -> Result<Step, Refusal>
    requires { length s.now ≤ 65535 }
    ensures buffers { SameBuffers next.old next.new }
    ensures done { SteppedAt rules.now s.now memory.now wanted next.old.term.now next.old.memory.now result next.new.term.now next.new.memory.now }
{
    let mut m = [0u16; store::WORDS];
    load_store(&rules.functions, &mut m, memory);
    let k = find(s, &m, wanted).ok_or(Refusal::NotOffered)?;
    step_from(rules, s, &mut m, k, next)
}

// Refusal 11, then 9, then 12.
fn step_given(
    rules: &Admitted,
    s: &[u16],
    reach: usize,
    asked: &Asked,
    next: &mut Next,
) -> Result<Step, Refusal>
    requires { length s.now ≤ 65535 }
    ensures buffers { SameBuffers next.old next.new }
    ensures done { Steps rules.now s.now reach asked.now.memory.now asked.now.request next.old.term.now next.old.memory.now result next.new.term.now next.new.memory.now }
{
    let tables = rules.tables;
    let wanted = ask(tables, asked.request).ok_or(Refusal::Stranger)?;
    let memory = asked.memory;
    let c = rules.functions.cells;
    room(next.term.len(), reach)?;
    room(memory.len(), c)?;
    room(next.memory.len(), c)?;
    step_at(rules, s, memory, wanted, next)
}

// Both operations, from the bytes of a rule set and a term.
fn step_by(rules: &[u8], asked: &Asked, next: &mut Next) -> Result<Step, Refusal>
    ensures buffers { SameBuffers next.old next.new }
    ensures done { Done (stepped rules.now asked.now.term.now asked.now.memory.now asked.now.request next.old.term.now next.old.memory.now) result next.new.term.now next.new.memory.now }
{
    with_given(
        rules,
        asked.term,
        &mut |admitted: &Admitted, s: &[u16], reach: usize|
            requires { length s.now ≤ 65535 }
        { step_given(admitted, s, reach, asked, next) },
    )
}

// ── the operations ──

// Stays two functions: Move and Present are two operations, with a contract each, and what they share is `step_by`.

// Move k: its successor and the memory that its action leaves; or the first refusal of 1 to 8, 10, 9 and 12, and nothing is written.
// Stays, here and in `present`: all comes one by one, as a host has it; the term and the memory become `Asked` here, and the two buffers `Next`.
pub fn make_move<'a>(
    rules: &[u8],
    term: &'a [u8],
    memory: &'a [u8],
    k: usize,
    next_term: &mut [u8],
    next_memory: &mut [u8],
) -> Result<Step, Refusal>
    ensures { Done (move rules.now term.now memory.now k next_term.old next_memory.old) result next_term.new next_memory.new }
{
    let asked = Asked {
        term,
        memory,
        request: Request::Move(k),
    };
    let mut next = Next {
        term: next_term,
        memory: next_memory,
    };
    step_by(rules, &asked, &mut next)
}

// Present: the first move whose action is the given event; or the first refusal of 1 to 8, 10, 11, 9 and 12.
pub fn present<'a>(
    rules: &[u8],
    term: &'a [u8],
    memory: &'a [u8],
    event: &'a [u8],
    next_term: &mut [u8],
    next_memory: &mut [u8],
) -> Result<Step, Refusal>
    ensures { Done (present rules.now term.now memory.now event.now next_term.old next_memory.old) result next_term.new next_memory.new }
{
    let asked = Asked {
        term,
        memory,
        request: Request::Event(event),
    };
    let mut next = Next {
        term: next_term,
        memory: next_memory,
    };
    step_by(rules, &asked, &mut next)
}
