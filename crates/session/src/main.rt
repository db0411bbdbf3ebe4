// Prints a session (document 01, "Examples"): reads a rule set and the numbers of moves from standard input, and prints the state at
// the start, each choice, and the state after each move taken. What is proved here is that the program is safe and ends; what
// it prints are answers of the engine, and tested.
#![tactic(auto)]

mod input;
mod lines;
mod positions;
mod states;

use admission::admit;
use input::{read_number, read_rules};
use lines::{Page, Refused, print_refusal};
use positions::Position;
use states::Session;
use std::io::{self, Stdin, Write};
use std::mem;

impl Session<'_> {
    // The move of number k from here into the next position, and its choice line. Answers whether the move was taken.
    fn choose(&mut self, k: u16) -> io::Result<bool> {
        write!(self.page, "choice {k}")?;
        let made = self.here.step(self.rules, k as usize, self.next);
        if let Err(refusal) = made {
            write!(self.page, " {}", Refused(refusal))?;
        }
        self.page.end_line()?;
        Ok(made.is_ok())
    }

    // The numbers, one by one, each with its choice line; with each move taken the two positions change places, and the state is printed.
    // Stays a `for` over a range, which only says that the loop ends (no input is as long): nothing gets smaller that a `while let` could end by.
    fn play(&mut self, input: &mut Stdin) -> io::Result<()> {
        let mut taken = 0;
        for _turn in 0..u64::MAX {
            let Some(k) = read_number(input) else {
                return Ok(());
            };
            if self.choose(k)? {
                mem::swap(&mut self.here, &mut self.next);
                taken += 1;
                self.print_state(taken)?;
            }
        }
        Ok(())
    }
}

// The session of an admitted rule set with this number of cells.
fn begin(input: &mut Stdin, page: &mut Page, rules: &[u8], cells: u32) -> io::Result<()> {
    let mut here = Position::new(cells);
    let mut next = Position::new(cells);
    if let Err(refusal) = here.start(rules) {
        return print_refusal(page, refusal);
    }
    let mut session = Session {
        page,
        rules,
        here: &mut here,
        next: &mut next,
    };
    session.print_state(0)?;
    session.play(input)
}

// The program ends where nothing more can be printed, as where the input ends.
fn main(rt: HostRuntime) {
    let mut input = rt.stdin();
    let mut page = Page::new(rt.stdout());
    let mut file = [0u8; 32768];
    let rules = read_rules(&mut input, &mut file);
    let _ = match admit(rules) {
        Ok(limits) => begin(&mut input, &mut page, rules, limits.cells),
        Err(refusal) => print_refusal(&mut page, refusal),
    };
}
