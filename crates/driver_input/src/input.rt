// The input, through a window of bytes that is filled again and again.
ghost use Rattle.std.specs.Prelude.{◌≡◌, ◌-◌, ◌+◌, ◌<◌, ◌≤◌, ◌==◌, length, min, IfOk, IfSome};

use std::io;
use std::io::Read;

pub const WIDTH: usize = 65536;

// A line is shorter than this.
const LONGEST: usize = 1024;

// The bytes from `from` up to `to`, which methods alone see, are read and not yet used. A window that isn't full was filled last at the end of the
// input. `within` says that the bytes go on with a line that was too long.
#[derive(Clone, Copy)]
pub struct Window {
    bytes: [u8; WIDTH],
    from: usize,
    to: usize,
    within: bool,
    ghost in_order: { from ≤ to },
    ghost inside: { to ≤ 65536 },
}

// What stands at the front of the input.
#[derive(Clone, Copy)]
pub enum Line<'a> {
    Whole(&'a [u8]),
    // The first piece of a line that is too long.
    TooLong,
    // A further piece.
    Rest,
}

// Reads until the bytes are full or the input ends, and answers how many it read: std's say little of that after an error.
fn read_full<R: Read>(reader: &mut R, bytes: &mut [u8]) -> io::Result<usize>
    ensures { IfOk result (λ n. n ≤ length bytes.new) }
{
    let mut done = 0;
    while done < bytes.len() {
        let n = reader.read(&mut bytes[done..])?;
        if n == 0 {
            return Ok(done);
        }
        done += n;
    }
    Ok(done)
}

impl Window {
    // Full, with every byte used: so the first use fills it.
    pub fn new() -> Window {
        Window {
            bytes: [0; WIDTH],
            from: WIDTH,
            to: WIDTH,
            within: false,
        }
    }

    fn unused(&self) -> &[u8]
        ensures { length result.now ≡ self.now.to - self.now.from }
    {
        &self.bytes[self.from..self.to]
    }

    pub fn is_empty(&self) -> bool
        ensures { result ≡ (self.now.to - self.now.from == 0) }
    {
        self.unused().is_empty()
    }

    // Moves the unused bytes to the front, and reads as many more as the window holds.
    pub fn fill<R: Read>(&mut self, reader: &mut R) -> io::Result<()> {
        self.bytes.copy_within(self.from..self.to, 0);
        let have = self.to - self.from;
        self.from = 0;
        self.to = have;
        self.to += read_full(reader, &mut self.bytes[have..])?;
        Ok(())
    }

    // Whether a window holds a whole line, if its line isn't too long.
    pub fn is_ready(&self) -> bool {
        (self.to < WIDTH) | (self.from < WIDTH - LONGEST)
    }

    // Fills the window if it isn't ready.
    pub fn make_ready<R: Read>(&mut self, reader: &mut R) -> io::Result<()> {
        if self.is_ready() {
            return Ok(());
        }
        self.fill(reader)
    }

    // Where the first line of the unused bytes ends: at its newline.
    fn newline(&self) -> Option<usize>
        ensures { IfSome result (λ n. self.now.from + n < self.now.to) }
    {
        self.unused().iter().position(|&b| b == b'\n')
    }

    // The line, or the piece of a line, at the front of a window that is ready. The last line may lack its newline.
    pub fn next_line(&mut self) -> Line<'_> {
        let newline = self.newline();
        let start = self.from;
        let (end, next) = match newline {
            Some(n) => (start + n, start + n + 1),
            None => (self.to, self.to),
        };
        let within = self.within;
        self.within = newline.is_none();
        self.from = next;
        if within {
            Line::Rest
        } else if end - start < LONGEST {
            Line::Whole(&self.bytes[start..end])
        } else {
            Line::TooLong
        }
    }

    // The first n unused bytes, or all of them.
    pub fn front(&self, n: u64) -> &[u8]
        ensures { length result.now ≡ min n (self.now.to - self.now.from) }
    {
        let unused = self.unused();
        &unused[..n.min(unused.len() as u64) as usize]
    }

    // Past n bytes more of the input, or to its end.
    pub fn skip<R: Read>(&mut self, reader: &mut R, n: u64) -> io::Result<()> {
        let mut left = n;
        while 0 < left && !self.is_empty() {
            let passed = self.front(left).len();
            self.from += passed;
            left -= passed as u64;
            if 0 < left {
                self.fill(reader)?;
            }
        }
        Ok(())
    }
}
