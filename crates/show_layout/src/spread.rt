// Numbers in a row, each as near as may be to where it is wanted, and none on another one.
use crate::scale;
use plan::MOST_TASKS;
use show_words::get;
use show_words::get::entry;
use show_words::places::by_digits;

// The tasks whose numbers are spread, and the lane of each.
#[derive(Clone, Copy)]
pub struct Numbers<'a> {
    pub tasks: u64,
    pub lanes: &'a [usize; MOST_TASKS],
}

// In each lane a number is pushed from where it is wanted until it is clear of the one before it. On each of its sides it takes the room
// of half a number, with half of the gap to the next.
fn pushed<F: Fn(u64, u64) -> u64, G: Fn(u64, u64) -> u64>(
    s: &Numbers,
    order: &[usize],
    wanted: &[u64; MOST_TASKS],
    begin: u64,
    beside: F,
    clear: G,
) -> [u64; MOST_TASKS]
    requires besides { F.IsAlwaysCallable beside }
    requires clears { G.IsAlwaysCallable clear }
{
    let lanes = s.lanes;
    let mut found = [0; MOST_TASKS];
    let mut taken = [begin; MOST_TASKS];
    for &t in order {
        if task_set::contains(s.tasks, t) {
            let lane = entry(lanes, t);
            let half = by_digits(t, 47, 80);
            let x = clear(entry(wanted, t), beside(entry(&taken, lane), half));
            get::set(&mut found, t, x);
            get::set(&mut taken, lane, beside(x, half));
        }
    }
    found
}

// From the left to the right: a number moves to the right.
fn pushed_right(s: &Numbers, order: &[usize], wanted: &[u64; MOST_TASKS]) -> [u64; MOST_TASKS] {
    pushed(
        s,
        order,
        wanted,
        scale::LEFT - 100,
        |x, room| x.saturating_add(room),
        |x, free| x.max(free),
    )
}

// From the right to the left, in the order from there: a number moves to the left.
fn pushed_left(s: &Numbers, order: &[usize], wanted: &[u64; MOST_TASKS]) -> [u64; MOST_TASKS] {
    pushed(
        s,
        order,
        wanted,
        scale::RIGHT + 300,
        |x, room| x.saturating_sub(room),
        |x, free| x.min(free),
    )
}

// The places of the numbers, by the order of the first n tasks from the left to the right in each lane. The mean of both ways leaves a
// cluster where it is; then it is moved onto the sheet, from the left and from the right.
pub fn spread(
    s: &Numbers,
    order: &[usize; MOST_TASKS],
    wanted: &[u64; MOST_TASKS],
    n: usize,
) -> [u64; MOST_TASKS] {
    let mut reversed = *order;
    if let Some(tasks) = reversed.get_mut(..n) {
        tasks.reverse();
    }
    let ahead = order.get(..n).unwrap_or(&[]);
    let back = reversed.get(..n).unwrap_or(&[]);
    let right = pushed_right(s, ahead, wanted);
    let left = pushed_left(s, back, wanted);
    let inside = pushed_right(s, ahead, &scale::middles(&left, &right));
    pushed_left(s, back, &inside)
}
