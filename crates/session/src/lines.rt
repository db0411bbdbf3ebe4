// Text on its way to standard output (document 01, "Examples"). It is gathered in a page, and a page is written at once: when it is full, and when a choice or
// a state is whole, so that whoever sends the numbers one by one sees each answer.
ghost use Rattle.std.specs.Prelude.{◌≡◌, ◌≤◌};

use refusals::Refusal;
use std::fmt::{self, Display, Formatter};
use std::io::{self, Stdout, Write};

// The bytes of which the first `used` wait, and where they go.
// Stays: std's BufWriter would do this, but it takes its buffer from the heap, and so may not get it: the program would have one more way to fail, for a
// buffer whose size is fixed.
#[derive(Drop)]
pub struct Page {
    bytes: [u8; 4096],
    used: usize,
    out: Stdout,
    ghost within: { used ≤ 4096 },
}

impl Page {
    // Nothing waits.
    pub fn new(out: Stdout) -> Page
        ensures { result.out ≡ out }
    {
        Page {
            bytes: [0; 4096],
            used: 0,
            out,
        }
    }

    // The line ends, and all that waits is written.
    pub fn end_line(&mut self) -> io::Result<()> {
        self.write_all(b"\n")?;
        self.flush()
    }
}

impl Write for Page {
    // As many bytes wait as the page has room for. A full page is written first; where it cannot be, it is lost, and printing goes on: the
    // end of the line returns whether the output takes anything.
    fn write(&mut self, text: &[u8]) -> io::Result<usize> {
        if self.used == 4096 {
            let _lost = self.flush();
            self.used = 0;
        }
        let n = text.len().min(4096 - self.used);
        let end = self.used + n;
        self.bytes[self.used..end].copy_from_slice(&text[..n]);
        self.used = end;
        Ok(n)
    }

    // All that waits is written.
    fn flush(&mut self) -> io::Result<()> {
        self.out.write_all(&self.bytes[..self.used])?;
        self.used = 0;
        Ok(())
    }
}

// What is printed of a refusal: its word and its number.
#[derive(Clone, Copy)]
pub struct Refused(pub Refusal);

impl Display for Refused {
    fn fmt<W: fmt::Write>(&self, f: &mut Formatter<W>) -> fmt::Result {
        write!(f, "refused {}", u32::from(self.0))
    }
}

// A line that is a refusal.
pub fn print_refusal(page: &mut Page, refusal: Refusal) -> io::Result<()> {
    write!(page, "{}", Refused(refusal))?;
    page.end_line()
}
