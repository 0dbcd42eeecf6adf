// Refusal 11: which predecessor stands later; and if the arrows lead in a circle, the circle. Refusal 23: the circle alone.
use plan::{Constraint, MOST_TASKS, Plan};
use show_faults::checks;
use show_lines::lines;
use show_words::{arrows, get, names, put};
use std::alloc::AllocError;

// The shortest way of arrows from a task back to itself: the next task after each task on it.
#[derive(Clone, Copy)]
struct Circle {
    task: usize,
    next: [usize; MOST_TASKS],
}

// Notes a task as the next one on the way of these.
fn note(next: &mut [usize; MOST_TASKS], set: u64, v: usize) {
    for (u, next) in next.iter_mut().enumerate() {
        if task_set::contains(set, u) {
            *next = v;
        }
    }
}

// One arrow further back: the tasks that are not reached yet and have an arrow to one of the last ones, each with its next.
fn step_back(
    predecessors: &[u64; MOST_TASKS],
    next: &mut [usize; MOST_TASKS],
    last: u64,
    reached: u64,
) -> u64 {
    let mut fresh: u64 = 0;
    for (v, &before) in predecessors.iter().enumerate() {
        if task_set::contains(last, v) {
            let found = task_set::difference(before, reached | fresh);
            note(next, found, v);
            fresh = fresh | found;
        }
    }
    fresh
}

// The tasks from which arrows lead to task t, and for each the next on a shortest way there.
fn ways_to(predecessors: &[u64; MOST_TASKS], next: &mut [usize; MOST_TASKS], t: usize) -> u64 {
    let mut last = task_set::inserted(0, t);
    let mut reached: u64 = 0;
    for _ in 0..MOST_TASKS {
        last = step_back(predecessors, next, last, reached);
        reached = reached | last;
    }
    reached
}

impl Circle {
    // The one through this task.
    fn through(predecessors: &[u64; MOST_TASKS], task: usize) -> Option<Circle> {
        let mut next = [0; MOST_TASKS];
        if task_set::contains(ways_to(predecessors, &mut next, task), task) {
            Some(Circle { task, next })
        } else {
            None
        }
    }

    // The one through the lowest task that is on one.
    fn lowest(predecessors: &[u64; MOST_TASKS]) -> Option<Circle> {
        (0..MOST_TASKS).find_map(|t| Circle::through(predecessors, t))
    }

    fn after(&self, u: usize) -> usize {
        get::entry(&self.next, u)
    }

    fn put_ways(&self, out: &mut Vec<u8>) -> Result<(), AllocError> {
        let mut u = self.task;
        for _ in 0..MOST_TASKS {
            u = self.after(u);
            put::words(out, b" \xe2\x86\x92 ", u as u64, b"")?;
            if u == self.task {
                break;
            }
        }
        Ok(())
    }

    fn quote_arrows(
        &self,
        out: &mut Vec<u8>,
        text: &[u8],
        is_ordered: bool,
    ) -> Result<(), AllocError> {
        let mut u = self.task;
        for _ in 0..MOST_TASKS {
            let v = self.after(u);
            quote_arrow(out, text, u, v, is_ordered)?;
            if v == self.task {
                break;
            }
            u = v;
        }
        Ok(())
    }

    // Of two arrows that lead to each other's beginning one is too many.
    fn put_advice(&self, out: &mut Vec<u8>) -> Result<(), AllocError> {
        if self.after(self.after(self.task)) == self.task {
            put::text(out, b"\n  take one of these two arrows out:\n")
        } else {
            put::text(
                out,
                b"\n  take one of these arrows out, or exchange its two numbers:\n",
            )
        }
    }

    // The circle, what to do about it, and its arrows. How the sentence begins was printed before.
    fn put(&self, out: &mut Vec<u8>, text: &[u8], is_ordered: bool) -> Result<(), AllocError> {
        put::words(
            out,
            b" lead in a circle, so that no order is right: ",
            self.task as u64,
            b"",
        )?;
        self.put_ways(out)?;
        self.put_advice(out)?;
        self.quote_arrows(out, text, is_ordered)
    }
}

// The place of a task's first C line, if it has one.
fn choice_of(text: &[u8], t: usize) -> Option<usize> {
    lines::find(text, b'C', &[t as u64])
}

// Whether an arrow goes against the order: the task that it leads to stands above.
fn is_against(text: &[u8], from: usize, to: usize) -> bool {
    choice_of(text, to) < choice_of(text, from)
}

// The line of an arrow; where the order counts, with a remark if it goes against it.
fn quote_arrow(
    out: &mut Vec<u8>,
    text: &[u8],
    from: usize,
    to: usize,
    is_ordered: bool,
) -> Result<(), AllocError> {
    match lines::find(text, b'A', &[from as u64, to as u64]) {
        Some(place) if is_ordered && is_against(text, from, to) => {
            lines::quote_with(out, text, place, b" (against the order)")
        }
        Some(place) => lines::quote(out, text, place),
        None => Ok(()),
    }
}

// The lines of the predecessors that stand later: the arrow of each, and its place in the order.
fn quote_later(out: &mut Vec<u8>, text: &[u8], later: u64, to: usize) -> Result<(), AllocError> {
    for from in 0..MOST_TASKS {
        if task_set::contains(later, from) {
            lines::quote_first(out, text, b'A', &[from as u64, to as u64])?;
            lines::quote_first(out, text, b'C', &[from as u64])?;
        }
    }
    Ok(())
}

fn put_later(out: &mut Vec<u8>, later: u64) -> Result<(), AllocError> {
    names::tasks(out, later)?;
    if task_set::member_count(later) == 1 {
        put::text(out, b", which stands later\n")
    } else {
        put::text(out, b", which stand later\n")
    }
}

// The last C line of some tasks.
fn last_choice(text: &[u8], set: u64) -> Option<usize> {
    (0..MOST_TASKS)
        .filter(|&t| task_set::contains(set, t))
        .filter_map(|t| choice_of(text, t))
        .max()
}

fn put_remedy(out: &mut Vec<u8>, text: &[u8], later: u64, place: usize) -> Result<(), AllocError> {
    let Some(last) = last_choice(text, later) else {
        return Ok(());
    };
    put::words(out, b"  move line ", place as u64, b" down, below line ")?;
    put::number(out, last as u64)?;
    put::text(
        out,
        b"; or, if it should be the other way round, exchange the two numbers of the A line\n",
    )
}

// The tasks at the first n positions of the order.
fn standing_before(c: &Constraint, n: usize) -> u64 {
    c.order
        .iter()
        .take(n)
        .fold(0, |set, &t| task_set::inserted(set, t))
}

// The predecessors of the task at a position that don't stand before it.
fn later_ones(p: &Plan, c: &Constraint, position: usize) -> u64 {
    let before = plan::predecessors_of(&p.predecessors, get::entry(&c.order, position));
    task_set::difference(before, standing_before(c, position))
}

// How many arrows lead to tasks of the order from tasks that stand later.
fn count_against(p: &Plan, c: &Constraint) -> u64 {
    let counts = (0..p.tasks).map(|i| u64::from(task_set::member_count(later_ones(p, c, i))));
    counts.fold(0u64, |sum, n| sum.saturating_add(n))
}

// How many arrows go against the order, where it is not this one alone; if it is most of them, all may be the wrong way round.
fn put_count(out: &mut Vec<u8>, p: &Plan, c: &Constraint) -> Result<(), AllocError> {
    let against = count_against(p, c);
    let all = arrows::count(&p.predecessors, p.tasks);
    if 1 < against {
        put::words(out, b"  in all ", against, b" of ")?;
        put::words(out, b"", all, b" arrows go against the order")?;
        if all < against.saturating_add(against) {
            put::text(
                out,
                b": are their two numbers exchanged, or is the order reversed?",
            )?;
        }
        put::end_line(out)?;
    }
    Ok(())
}

// The circle of the refused task, or another fault of the text besides.
fn put_circle(
    out: &mut Vec<u8>,
    text: &[u8],
    circle: &Circle,
    is_own: bool,
) -> Result<(), AllocError> {
    if is_own {
        put::text(out, b"  the arrows")?;
    } else {
        put::text(out, b"  besides, other arrows")?;
    }
    circle.put(out, text, true)
}

pub fn show(
    out: &mut Vec<u8>,
    text: &[u8],
    p: &Plan,
    c: &Constraint,
    position: usize,
) -> Result<(), AllocError> {
    let t = get::entry(&c.order, position);
    let Some(place) = choice_of(text, t) else {
        return Ok(());
    };
    let later = later_ones(p, c, position);
    checks::at_position(out, 11, position, place)?;
    put::words(out, b"task ", t as u64, b" waits for ")?;
    put_later(out, later)?;
    lines::quote(out, text, place)?;
    quote_later(out, text, later, t)?;
    let own = Circle::through(&p.predecessors, t);
    if own.is_none() {
        put_remedy(out, text, later, place)?;
    }
    put_count(out, p, c)?;
    let is_own = own.is_some();
    match own.or_else(|| Circle::lowest(&p.predecessors)) {
        Some(circle) => put_circle(out, text, &circle, is_own),
        None => Ok(()),
    }
}

// Nothing where there is no circle.
pub fn show_alone(out: &mut Vec<u8>, text: &[u8], p: &Plan) -> Result<(), AllocError> {
    if let Some(circle) = Circle::lowest(&p.predecessors) {
        put::text(out, b"refused 23: the arrows")?;
        circle.put(out, text, false)?;
    }
    Ok(())
}
