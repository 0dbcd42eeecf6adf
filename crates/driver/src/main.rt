// The driver: for vectors and for comparison with another implementation. Standard input is a line with a count n, n bytes
// of plan text, and then commands, one a line: a letter, and decimal fields of 1 to 20 digits (leading zeros are taken),
// each after a tab. It answers a line for the text and one for each command, fields after tabs:
//
//   text             read number place
//   K                check number place
//   B                bound number place response
//   M times          simulate number place response, then the start and finish of tasks 0 to 63; 0 to 80 times
//   D                margins number place any least task, then the margin of tasks 0 to 63; any is 1 or 0, and a number below
//                    zero is - and digits
//   S                start number place started
//   T report         tick number place started
//   Q                state instant started finished, then the start and finish of tasks 0 to 63
//   W length         timetable number place written, and a line with the lent buffer, filled with # before; at most 2,000
//   Y length times   the same for these times in place of worst ones; 0 to 79 times
//   Z reports        replay number place started, then, if the start is accepted, number, place and started of each tick;
//                    0 to 79 reports; the run state stays
//   P part i value   put: a value into the kept plan or constraint
//   R part i value   put: a value into the run state, or into its own plan or constraint
//   E task type start finish
//                    put: one more record of a schedule, four numbers of 32 bits, at most 80 records
//   L                adopt number place length, then the task and the type of entries 0 to 63 of the constraint that the
//                    schedule gives: it is kept if accepted. The list of records is empty again
//   H                propose number place length, then the task and the type of entries 0 to 63 of the constraint that the bench
//                    proposes for the kept plan: it is kept if accepted
//
// Parts: 0 types, 1 units, 2 tasks, 3 best, 4 worst, 5 predecessors, 6 length, 7 an entry's task, 8 an entry's type,
// 14 deadlines, 15 not-before instants; for R also 9 instant, 10 count of started, 11 finished set, 12 starts, 13 finishes. The
// index is 0 where the part is one number.
// Any other line answers bad and changes nothing; so does a line of 1,024 bytes or more, as one line. A first line that is
// no count answers bad, and no text is read. Input is read in pieces of 65,536 bytes: an answer may wait for later commands.
#![tactic(auto)]

use driver_answers::commands;
use driver_answers::commands::Kept;
use driver_answers::output::Answer;
use driver_input::fields;
use driver_input::input::{Line, Window};
use std::io;
use std::io::{BufWriter, Read, Write};

// What a session reads and writes, and what it keeps between commands.
#[derive(Drop)]
struct Session<R, W> {
    reader: R,
    writer: W,
    out: Answer,
    window: Window,
    kept: Kept,
}

// The count that a first line is.
fn count_of(line: Line<'_>) -> Option<u64> {
    let Line::Whole(bytes) = line else {
        return None;
    };
    match fields::of(bytes)?.as_slice() {
        [n] => Some(*n),
        _ => None,
    }
}

impl<R: Read, W: Write> Session<R, W> {
    // The text of n bytes. A window that is full and holds less than n has more than a text may have. The answer goes out
    // before the rest of the text is waited for.
    fn text(&mut self, n: u64) -> io::Result<()> {
        self.window.fill(&mut self.reader)?;
        self.kept.text(&mut self.out, self.window.front(n));
        self.out.write_to(&mut self.writer)?;
        self.writer.flush()?;
        self.window.skip(&mut self.reader, n)
    }

    fn first_line(&mut self) -> io::Result<()> {
        self.window.make_ready(&mut self.reader)?;
        match count_of(self.window.next_line()) {
            Some(n) => self.text(n),
            None => {
                commands::bad(&mut self.out);
                Ok(())
            }
        }
    }

    // A line and its answer. Of a line that is too long the first piece alone has an answer.
    fn turn(&mut self) {
        match self.window.next_line() {
            Line::Whole(bytes) => self.kept.line(&mut self.out, bytes),
            Line::TooLong => commands::bad(&mut self.out),
            Line::Rest => {}
        }
    }

    // Answers go out before input is waited for. No more lines than a u64 counts.
    fn run(&mut self) -> io::Result<()> {
        self.first_line()?;
        for _ in 0..u64::MAX {
            self.out.write_to(&mut self.writer)?;
            if !self.window.is_ready() {
                self.writer.flush()?;
            }
            self.window.make_ready(&mut self.reader)?;
            if self.window.is_empty() {
                break;
            }
            self.turn();
        }
        self.writer.flush()
    }
}

fn main(rt: HostRuntime) -> io::Result<()> {
    let mut session = Session {
        reader: rt.stdin(),
        writer: BufWriter::new(rt.alloc(), rt.stdout())?,
        out: Answer::new(),
        window: Window::new(),
        kept: Kept::nothing(),
    };
    session.run()
}
