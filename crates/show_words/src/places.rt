// Where the tasks lie in a picture, by task number. Places are tenths of a pixel from the upper left corner; their sums and differences
// never go below 0 or out of their width.
use plan::MOST_TASKS;

// The lane, where the bar lies from the left to the right, where the number of a narrow one, the deadline and the number of that, the
// not-before instant and the number of that. Each kind of place is worked out for all tasks at once, so it has an array of its own.
#[derive(Clone, Copy)]
pub struct Places {
    pub lanes: [usize; MOST_TASKS],
    pub lefts: [u64; MOST_TASKS],
    pub rights: [u64; MOST_TASKS],
    pub numbers: [u64; MOST_TASKS],
    pub dues: [u64; MOST_TASKS],
    pub flags: [u64; MOST_TASKS],
    pub releases: [u64; MOST_TASKS],
    pub tags: [u64; MOST_TASKS],
}

// Where the bar begins from above, and the row of not-before instants below it; and how high a bar is.
#[derive(Clone, Copy)]
pub struct Heights {
    pub bars: [u64; MOST_TASKS],
    pub feet: [u64; MOST_TASKS],
    pub bar: u64,
}

pub fn middle(a: u64, b: u64) -> u64 {
    a.saturating_add(b) / 2
}

// What a task number of one digit takes, or one of two.
pub fn by_digits(t: usize, one: u64, two: u64) -> u64 {
    if t < 10 { one } else { two }
}
