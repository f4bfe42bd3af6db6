// The recording, a line at a time.
ghost use Rattle.std.specs.Prelude.{◌≡◌};
ghost use Rattle.std.specs.Io.Iter.{lines_left};
ghost use Rattle.std.specs.Iterator.{at_most};

use std::alloc::Global;
use std::io;
use std::io::{BufRead, Lines};

// A line, and its number, counted from 1.
#[derive(Drop)]
pub struct Numbered {
    pub number: u64,
    pub text: String,
}

// The lines that are left, and how many were read. Text that is not UTF-8 becomes a line that cannot be read.
#[derive(Drop)]
pub struct Input<B> {
    lines: Lines<B>,
    read: u64,
    heap: Global,
}

impl<B: BufRead + Drop> Input<B> {
    pub fn new(heap: Global, lines: Lines<B>) -> Input<B>
        ensures { (result.lines ≡ lines) × (result.read ≡ 0) }
    {
        Input {
            lines,
            read: 0,
            heap,
        }
    }
}

impl<B: BufRead + Drop> Iterator for Input<B> {
    type Item = io::Result<Numbered>;

    ghost remaining = { λ s. at_most (lines_left s.lines) };

    fn next(&mut self) -> Option<io::Result<Numbered>> {
        let line = match self.lines.next()? {
            Err(error) if error.kind() == io::ErrorKind::InvalidData => {
                String::from_str(self.heap, "(not UTF-8)").map_err(io::Error::from)
            }
            line => line,
        };
        // by hand, since `enumerate` would ask for a bound on the input
        self.read = self.read.saturating_add(1);
        let number = self.read;
        Some(line.map(|text| Numbered { number, text }))
    }
}
