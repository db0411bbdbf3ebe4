// A term and a memory between two moves of a session, in buffers for the largest sizes that are reported (document 01, "Examples").
ghost use Rattle.std.specs.Prelude.{◌≡◌, Ok, Err, IfOk, IfErr, OnOk};
ghost use Rattle.engine.specs.Starting.{StartDone};
ghost use Rattle.session.specs.Positions.{term_of, memory_of};

use engine::counting::count;
use engine::starting::start;
use engine::stepping::{Step, make_move};
use refusals::Refusal;
use words::front;

// The words of the term and the cells of the memory are at the start of the buffers.
// Stays: two Vecs would keep their lengths, but the engine writes into buffers with room for the largest sizes and returns the size then: each Vec would be cut
// after a move and filled up again before the next, and so the length would be kept no better than here.
#[derive(Drop)]
pub struct Position {
    term: [u8; 16384],
    words: u32,
    memory: [u8; 2048],
    cells: u32,
}

impl Position {
    // No term yet, and a memory of this number of cells.
    pub fn new(cells: u32) -> Position
        ensures { result.cells ≡ cells }
    {
        Position {
            term: [0; 16384],
            words: 0,
            memory: [0; 2048],
            cells,
        }
    }

    // Stays, and `memory` with it: each names two fields of its own, and says so in a clause of its own.
    fn term(&self) -> &[u8]
        ensures { result.now ≡ term_of self.now }
    {
        front(&self.term, 2 * self.words as usize)
    }

    pub fn memory(&self) -> &[u8]
        ensures { result.now ≡ memory_of self.now }
    {
        front(&self.memory, 2 * self.cells as usize)
    }

    // The start of a rule set takes the place of the position held before.
    pub fn start(&mut self, rules: &[u8]) -> Result<(), Refusal>
        ensures started { OnOk result (StartDone rules.now self.old.term self.old.memory (Ok self.new.words) self.new.term self.new.memory) }
        ensures refused { IfErr result (λ refusal. StartDone rules.now self.old.term self.old.memory (Err refusal) self.new.term self.new.memory) }
        ensures kept { self.new.cells ≡ self.old.cells }
    {
        self.words = start(rules, &mut self.term, &mut self.memory)?;
        Ok(())
    }

    // How many moves there are here.
    pub fn count(&self, rules: &[u8]) -> Result<u32, Refusal> {
        count(rules, self.term(), self.memory())
    }

    // The move of number k leads from here into the next position. Where it is refused, the next position is of no use.
    pub fn step(&self, rules: &[u8], k: usize, next: &mut Position) -> Result<Step, Refusal>
        ensures words { IfOk result (λ step. next.new.words ≡ step.size) }
        ensures kept { next.new.cells ≡ next.old.cells }
    {
        let made = make_move(
            rules,
            self.term(),
            self.memory(),
            k,
            &mut next.term,
            &mut next.memory,
        );
        if let Ok(step) = made {
            next.words = step.size;
        }
        made
    }
}
