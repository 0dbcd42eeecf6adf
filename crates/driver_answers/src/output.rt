// Answers: the lines of an answer are put together in a buffer and written at once.
use itoa::{Buffer, Integer};
use std::io;
use std::io::Write;

// More than the longest answer: a name and 240 numbers, of which a third may have 20 digits.
pub const WIDTH: usize = 4096;

// The first `len` bytes are what is put together, in an array, so that no memory can run out for an answer.
#[derive(Drop)]
pub struct Answer {
    bytes: [u8; WIDTH],
    len: usize,
}

impl Answer {
    pub fn new() -> Answer {
        Answer {
            bytes: [0; WIDTH],
            len: 0,
        }
    }

    // What stands past the end of the buffer is left out.
    fn byte(&mut self, b: u8) {
        if let Some(place) = self.bytes.get_mut(self.len) {
            *place = b;
            self.len += 1;
        }
    }

    pub fn text(&mut self, text: &[u8]) {
        for &b in text {
            self.byte(b);
        }
    }

    // A tab and a number.
    pub fn number<I: Integer>(&mut self, n: I) {
        let mut digits = Buffer::new();
        self.byte(b'\t');
        self.text(digits.format(n).as_bytes());
    }

    // A number and a place.
    pub fn refusal(&mut self, number: u32, place: usize) {
        self.number(number);
        self.number(place);
    }

    // A name, a number and a place.
    pub fn verdict(&mut self, name: &[u8], number: u32, place: usize) {
        self.text(name);
        self.refusal(number, place);
    }

    pub fn end_line(&mut self) {
        self.byte(b'\n');
    }

    // Bytes as a line.
    pub fn text_line(&mut self, text: &[u8]) {
        self.text(text);
        self.end_line();
    }

    // A name, a number, a place and a value as a line.
    pub fn valued_line<I: Integer>(&mut self, name: &[u8], number: u32, place: usize, value: I) {
        self.verdict(name, number, place);
        self.number(value);
        self.end_line();
    }

    // Writes what is put together.
    pub fn write_to<W: Write>(&mut self, w: &mut W) -> io::Result<()> {
        w.write_all(self.bytes.get(..self.len).unwrap_or(&[]))?;
        self.len = 0;
        Ok(())
    }
}
