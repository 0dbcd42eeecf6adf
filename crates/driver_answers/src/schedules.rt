// The records of a schedule, put one by one, and what becomes of them.
use crate::output::Answer;
use adoption_theory::Schedule;
use plan::{Constraint, MOST_TASKS};

// So many are counted. The first 64 are kept: a longer list is refused for its count.
const MOST_RECORDS: usize = 80;

pub fn none() -> Schedule {
    Schedule {
        len: 0,
        tasks: [0; MOST_TASKS],
        types: [0; MOST_TASKS],
        starts: [0; MOST_TASKS],
        finishes: [0; MOST_TASKS],
    }
}

// One more record: task, type, start and finish. None, and the schedule as it was, where there is no room for it, or where a
// number hasn't 32 bits.
pub fn put(s: &mut Schedule, record: [u64; 4]) -> Option<()> {
    let [task, unit_type, start, finish] = record.map(|x| u32::try_from(x).ok());
    let (task, unit_type, start, finish) = (task?, unit_type?, start?, finish?);
    let i = s.len;
    if MOST_RECORDS <= i {
        return None;
    }
    if i < MOST_TASKS {
        s.tasks[i] = task;
        s.types[i] = unit_type;
        s.starts[i] = start;
        s.finishes[i] = finish;
    }
    s.len = i + 1;
    Some(())
}

// Number and place, and the constraint: its length and each entry.
pub fn order_line(out: &mut Answer, name: &[u8], number: u32, place: usize, c: &Constraint) {
    out.verdict(name, number, place);
    out.number(c.len);
    for (&task, &unit_type) in c.order.iter().zip(&c.chosen) {
        out.number(task);
        out.number(unit_type);
    }
    out.end_line();
}
