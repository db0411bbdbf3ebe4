// What is printed of a state: a line with the moves taken, the move count and the cells, then a line for each move (document 01,
// "Examples").
use super::lines::{Page, Refused, print_refusal};
use super::positions::Position;
use engine::stepping::Visible;
use std::fmt::{self, Display, Formatter};
use std::io::{self, Write};

// The cells of a memory, each after a space; the word 65,535 is an undefined cell.
// Stays a word: a memory is bytes that a host lends, and no Option can be in them.
#[derive(Clone, Copy, Drop)]
struct Cells<'a>(&'a [u8]);

impl Display for Cells<'_> {
    fn fmt<W: fmt::Write>(&self, f: &mut Formatter<W>) -> fmt::Result {
        let (words, _) = self.0.as_chunks::<2>();
        for word in words {
            match u16::from_le_bytes(*word) {
                65535 => write!(f, " -")?,
                cell => write!(f, " {cell}")?,
            }
        }
        Ok(())
    }
}

// The action of a move: after a space, `i` for the internal action; else the label and the arguments, each after a space.
#[derive(Clone, Copy)]
struct Action(Option<Visible>);

impl Display for Action {
    fn fmt<W: fmt::Write>(&self, f: &mut Formatter<W>) -> fmt::Result {
        let Some(
            Visible {
                label,
                arguments,
                first,
                second,
            },
        ) = self.0
        else {
            return write!(f, " i");
        };
        write!(f, " {label}")?;
        if 0 < arguments {
            write!(f, " {first}")?;
        }
        if 1 < arguments {
            write!(f, " {second}")?;
        }
        Ok(())
    }
}

/// A rule set, the position that its session is at, another that the successors are written into, and the page that all is printed on.
#[derive(Drop)]
pub struct Session<'a> {
    pub page: &'a mut Page,
    pub rules: &'a [u8],
    pub here: &'a mut Position,
    pub next: &'a mut Position,
}

impl Session<'_> {
    // Prints the state that the session is in, after the moves taken. The next position takes the successors that Move writes on the way. That the
    // position, or a move below the count, is refused does not occur.
    pub fn print_state(&mut self, taken: u64) -> io::Result<()> {
        let moves = match self.here.count(self.rules) {
            Ok(moves) => moves,
            Err(refusal) => return print_refusal(self.page, refusal),
        };
        write!(
            self.page,
            "state {taken} moves {moves} cells{}",
            Cells(self.here.memory()),
        )?;
        for k in 0..moves {
            write!(self.page, "\n{k}")?;
            match self.here.step(self.rules, k as usize, self.next) {
                Ok(step) => write!(self.page, "{}", Action(step.action))?,
                Err(refusal) => write!(self.page, " {}", Refused(refusal))?,
            }
        }
        self.page.end_line()
    }
}
