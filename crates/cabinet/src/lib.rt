// The engine as a C host calls it, with numbers and byte slices only (eb3.h).
#![tactic(auto)]

ghost use Rattle.std.specs.Prelude.{◌≡◌};
ghost use Rattle.eb3.specs.Operations.{admit, start, count, move, present, run, ScratchAfter};
ghost use Rattle.cabinet.specs.Exported.{sizes, started, counted, exported_action, exported_step, moved, ran};

use admission::admit;
use engine::counting::count;
use engine::running::run;
use engine::starting::start;
use engine::stepping::{Step, make_move, present};
use refusals::Refusal;

// In place of a refusal's number, where the operation was done.
// Stays: C hosts get a number, and EB3_DONE of eb3.h is 0.
const DONE: u32 = 0;

// Stays, here and in the structs after it: they are the C interface, as eb3.h declares it. C has no Option and no enum with values, so `refusal`
// is 0 or a refusal's number, `visible` is 0 or 1, and what an answer does not have is 0. So each exported function writes the fields of its own struct.
#[repr(C)]
#[derive(Clone, Copy, Default)]
pub struct Sizes {
    pub refusal: u32,
    pub cells: u32,
    pub reach: u32,
    pub breadth: u32,
    pub size: u32,
}

#[repr(C)]
#[derive(Clone, Copy, Default)]
pub struct Started {
    pub refusal: u32,
    pub size: u32,
}

#[repr(C)]
#[derive(Clone, Copy, Default)]
pub struct Counted {
    pub refusal: u32,
    pub moves: u32,
}

#[repr(C)]
#[derive(Clone, Copy, Default)]
pub struct Moved {
    pub refusal: u32,
    pub size: u32,
    pub visible: u32,
    pub label: u32,
    pub arguments: u32,
    pub first: u32,
    pub second: u32,
}

#[repr(C)]
#[derive(Clone, Copy, Default)]
pub struct Ran {
    pub refusal: u32,
    pub size: u64,
    pub visible: u64,
    pub internal: u64,
    pub refused: u64,
}

// Stays, here and below: the buffers come one by one, and each struct is filled field by field, since that is how eb3.h declares them: it has no struct
// within a struct.
#[unsafe(no_mangle)]
pub extern "C" fn eb3_admit(rules: &[u8]) -> Sizes
    ensures { result ≡ sizes (admit rules.now) }
{
    match admit(rules) {
        Ok(l) => Sizes {
            refusal: DONE,
            cells: l.cells,
            reach: l.reach,
            breadth: l.breadth,
            size: l.size,
        },
        Err(refusal) => Sizes {
            refusal: u32::from(refusal),
            ..Sizes::default()
        },
    }
}

#[unsafe(no_mangle)]
pub extern "C" fn eb3_start(rules: &[u8], term: &mut [u8], memory: &mut [u8]) -> Started
    ensures answer { result ≡ started (start rules.now term.old memory.old).answer }
    ensures term_after { term.new ≡ (start rules.now term.old memory.old).term }
    ensures memory_after { memory.new ≡ (start rules.now term.old memory.old).memory }
{
    match start(rules, term, memory) {
        Ok(n) => Started {
            refusal: DONE,
            size: n,
        },
        Err(refusal) => Started {
            refusal: u32::from(refusal),
            ..Started::default()
        },
    }
}

#[unsafe(no_mangle)]
pub extern "C" fn eb3_count(rules: &[u8], term: &[u8], memory: &[u8]) -> Counted
    ensures { result ≡ counted (count rules.now term.now memory.now) }
{
    match count(rules, term, memory) {
        Ok(n) => Counted {
            refusal: DONE,
            moves: n,
        },
        Err(refusal) => Counted {
            refusal: u32::from(refusal),
            ..Counted::default()
        },
    }
}

// What a step gives: with a visible action, and with the internal one.
impl From<Step> for Moved {
    ghost from_gives = { λ step m. m ≡ exported_action step.size step.action };

    fn from(step: Step) -> Moved {
        match step.action {
            Some(a) => Moved {
                refusal: DONE,
                size: step.size,
                visible: 1,
                label: a.label,
                arguments: a.arguments,
                first: a.first,
                second: a.second,
            },
            None => Moved {
                refusal: DONE,
                size: step.size,
                ..Moved::default()
            },
        }
    }
}

// What Move and Present give.
impl From<Result<Step, Refusal>> for Moved {
    ghost from_gives = { λ r m. m ≡ exported_step r };

    fn from(r: Result<Step, Refusal>) -> Moved {
        match r {
            Ok(step) => Moved::from(step),
            Err(refusal) => Moved {
                refusal: u32::from(refusal),
                ..Moved::default()
            },
        }
    }
}

#[unsafe(no_mangle)]
pub extern "C" fn eb3_move(
    rules: &[u8],
    term: &[u8],
    memory: &[u8],
    k: u64,
    next_term: &mut [u8],
    next_memory: &mut [u8],
) -> Moved
    ensures answer { result ≡ moved (move rules.now term.now memory.now k next_term.old next_memory.old).answer }
    ensures term_after { next_term.new ≡ (move rules.now term.now memory.now k next_term.old next_memory.old).term }
    ensures memory_after { next_memory.new ≡ (move rules.now term.now memory.now k next_term.old next_memory.old).memory }
{
    Moved::from(make_move(rules, term, memory, k as usize, next_term, next_memory))
}

#[unsafe(no_mangle)]
pub extern "C" fn eb3_present(
    rules: &[u8],
    term: &[u8],
    memory: &[u8],
    event: &[u8],
    next_term: &mut [u8],
    next_memory: &mut [u8],
) -> Moved
    ensures answer { result ≡ moved (present rules.now term.now memory.now event.now next_term.old next_memory.old).answer }
    ensures term_after { next_term.new ≡ (present rules.now term.now memory.now event.now next_term.old next_memory.old).term }
    ensures memory_after { next_memory.new ≡ (present rules.now term.now memory.now event.now next_term.old next_memory.old).memory }
{
    Moved::from(present(rules, term, memory, event, next_term, next_memory))
}

// Of the spare cells only the length is read. Of the spare buffer a refusal writes nothing, and a run only whole words.
#[unsafe(no_mangle)]
pub extern "C" fn eb3_run(
    rules: &[u8],
    list: &[u8],
    table: &mut [u8],
    term: &mut [u8],
    memory: &mut [u8],
    spare: &mut [u8],
    cells: &[u8],
) -> Ran
    ensures answer { result ≡ ran (run rules.now list.now table.old term.old memory.old spare.old cells.now).written.answer }
    ensures table_after { table.new ≡ (run rules.now list.now table.old term.old memory.old spare.old cells.now).table }
    ensures term_after { term.new ≡ (run rules.now list.now table.old term.old memory.old spare.old cells.now).written.term }
    ensures memory_after { memory.new ≡ (run rules.now list.now table.old term.old memory.old spare.old cells.now).written.memory }
    ensures scratch_after { ScratchAfter (run rules.now list.now table.old term.old memory.old spare.old cells.now).written.answer spare.old spare.new }
{
    match run(rules, list, table, term, memory, spare, cells) {
        Ok(t) => Ran {
            refusal: DONE,
            size: u64::from(t.size),
            visible: t.visible,
            internal: t.internal,
            refused: t.refused,
        },
        Err(refusal) => Ran {
            refusal: u32::from(refusal),
            ..Ran::default()
        },
    }
}
