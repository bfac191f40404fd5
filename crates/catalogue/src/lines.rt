// Standard input a line at a time, and a line's words.
ghost use Rattle.std.specs.Prelude.{◌+◌, ◌<◌, ◌≤◌, length, IfSome};
ghost use Rattle.std.specs.Iterator.{at_most};

use keycode::parts::clip;
use std::io::Read;

// The most bytes of a line, its end counted.
const LONGEST: usize = 8192;

// Blocks of this length are read: a call of the system for each byte would take most of a long run's time.
const BLOCK: usize = 65536;

// What was read and what of it is left. By hand: a library reader takes its buffer from the heap.
#[derive(Drop)]
pub(crate) struct Block {
    bytes: [u8; BLOCK],
    at: usize,
    have: usize,
    ghost ordered: { (at ≤ have) × (have ≤ 65536) },
}

impl Block {
    pub(crate) fn new() -> Self {
        Block {
            bytes: [0; BLOCK],
            at: 0,
            have: 0,
        }
    }

    // What is left moves to the front, and what comes next is put behind it. None where nothing comes any more. It is read once, so that
    // what is there is answered before more is waited for.
    fn fill<R: Read>(&mut self, input: &mut R) -> Option<()> {
        if 0 < self.at {
            self.bytes.copy_within(self.at..self.have, 0);
            self.have -= self.at;
            self.at = 0;
        }
        let more = input.read(&mut self.bytes[self.have..]).ok()?;
        self.have += more;
        (more != 0).then_some(())
    }

    // How long the next line is, which is then in the block with its end. Each turn but the first has a byte more at least.
    fn line_len<R: Read>(&mut self, input: &mut R) -> Option<usize>
        ensures { IfSome result (λ n. self.new.at + n < self.new.have) }
    {
        let mut seen = 0;
        for _ in 0..=LONGEST {
            let end = self.have.min(self.at + LONGEST);
            let line = &self.bytes[self.at..end];
            let fresh = line.get(seen..)?;
            if let Some(more) = fresh.iter().position(|byte| *byte == b'\n') {
                return Some(seen + more);
            }
            seen = line.len();
            if seen == LONGEST {
                break;
            }
            self.fill(input)?;
        }
        None
    }

    // The next line, its end not counted. None where it is longer than lines may be, or where no line ends any more.
    pub(crate) fn next_line<R: Read>(&mut self, input: &mut R) -> Option<&[u8]> {
        let len = self.line_len(input)?;
        let start = self.at;
        self.at = start + len + 1;
        Some(clip(&self.bytes, start, len))
    }
}

// The words of a line. A space ends each, also the last: behind a space at the very end there is none.
#[derive(Drop)]
pub(crate) struct Words<'a>(pub(crate) &'a [u8]);

impl<'a> Iterator for Words<'a> {
    type Item = &'a [u8];

    ghost remaining = { λ s. at_most (length s.0.now) };

    fn next(&mut self) -> Option<&'a [u8]> {
        if self.0.is_empty() {
            return None;
        }
        let end = self
            .0
            .iter()
            .position(|byte| *byte == b' ')
            .unwrap_or(self.0.len());
        let (word, rest) = self.0.split_at(end);
        self.0 = rest.get(1..).unwrap_or(&[]);
        Some(word)
    }
}
