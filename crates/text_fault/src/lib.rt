// The faults 3 to 7 of a line.
#![tactic(auto)]

ghost use Rattle.std.specs.Prelude.{◌≡◌};
ghost use Rattle.text_fault.specs.Faults.{fault_number, first_fault, kind_of, number_of, repeated, unknown};

use plan::Plan;
use text_form::Line;
use text_range::{at_odds, out_of_range};

// The kinds of lines, by their letters, in the order in which they stand in a text.
#[derive(Clone, Copy, Debug, PartialEq, Eq, PartialOrd, Ord)]
pub enum Kind {
    U,
    T,
    A,
    D,
    N,
    C,
}

// Of the lines before: the kind of the last, and the tasks with a T line, with an N line and with a C line.
#[derive(Clone, Copy)]
pub struct Seen {
    pub kind: Kind,
    pub timed: u64,
    pub released: u64,
    pub listed: u64,
}

// What is wrong with a line that has one of the forms.
#[derive(Clone, Copy, Debug, PartialEq, Eq)]
pub enum Fault {
    OutOfRange,
    AtOdds,
    TooLate,
    Unknown,
    Repeated,
}

impl Fault {
    pub fn number(self) -> u32
        ensures { result ≡ fault_number self }
    {
        match self {
            Fault::OutOfRange => 3,
            Fault::AtOdds => 4,
            Fault::TooLate => 5,
            Fault::Unknown => 6,
            Fault::Repeated => 7,
        }
    }
}

pub fn kind_of(line: Line) -> Kind
    ensures { result ≡ kind_of line }
{
    match line {
        Line::Units(_, _) => Kind::U,
        Line::Times(_, _, _, _) => Kind::T,
        Line::Arrow(_, _) => Kind::A,
        Line::Deadline(_, _) => Kind::D,
        Line::Release(_, _) => Kind::N,
        Line::Choice(_, _) => Kind::C,
    }
}

fn unknown(types: usize, timed: u64, line: Line) -> bool
    ensures { result ≡ unknown types timed line }
{
    match line {
        Line::Units(k, _) => (k as usize) != types,
        Line::Times(_, k, _, _) => types <= (k as usize),
        Line::Arrow(from, to) => {
            !(task_set::contains(timed, from as usize) & task_set::contains(timed, to as usize))
        }
        Line::Deadline(t, _) | Line::Release(t, _) | Line::Choice(t, _) => {
            !task_set::contains(timed, t as usize)
        }
    }
}

fn repeated(p: &Plan, seen: Seen, line: Line) -> bool
    ensures { result ≡ repeated p.now.wcet p.now.predecessors p.now.deadlines seen line }
{
    match line {
        Line::Units(_, _) => false,
        Line::Times(t, k, _, _) => plan::time_of(&p.wcet, t as usize, k as usize) != 0,
        Line::Arrow(from, to) => {
            let before = plan::predecessors_of(&p.predecessors, to as usize);
            task_set::contains(before, from as usize)
        }
        Line::Deadline(t, _) => plan::deadline_of(&p.deadlines, t as usize) != 0,
        Line::Release(t, _) => task_set::contains(seen.released, t as usize),
        Line::Choice(t, _) => task_set::contains(seen.listed, t as usize),
    }
}

// The first fault of a line, after what was read.
#[tactic(auto, unfolding(crate::specs::Faults::first_fault))]
pub fn line_fault(p: &Plan, seen: Seen, line: Line) -> Option<Fault>
    ensures { number_of result
        ≡ first_fault p.now.types p.now.wcet p.now.predecessors p.now.deadlines seen line }
{
    if out_of_range(line) {
        return Some(Fault::OutOfRange);
    }
    if at_odds(line) {
        return Some(Fault::AtOdds);
    }
    if kind_of(line) < seen.kind {
        return Some(Fault::TooLate);
    }
    if unknown(p.types, seen.timed, line) {
        return Some(Fault::Unknown);
    }
    if repeated(p, seen, line) {
        return Some(Fault::Repeated);
    }
    None
}
