// Where instants and lanes lie on the sheet. Places are tenths of a pixel from the upper left corner.
use plan::MOST_TASKS;
use show_words::places::middle;

// Where instant 0 lies, how long the axis is, and where it ends.
pub const LEFT: u64 = 1150;

const LENGTH: u64 = 10000;

pub const RIGHT: u64 = 11150;

pub const SHEET: u64 = 11750;

// How high a bar is and what is left free above and below it, where the lanes begin, and whether they are many.
#[derive(Clone, Copy)]
pub struct Size {
    pub bar: u64,
    pub pad: u64,
    pub top: u64,
    pub many: bool,
}

// Many lanes are lower, and have the axis above them, too.
pub fn size_for(lanes: usize) -> Size {
    if 16 < lanes {
        return Size {
            bar: 160,
            pad: 35,
            top: 720,
            many: true,
        };
    }
    Size {
        bar: 260,
        pad: 70,
        top: 560,
        many: false,
    }
}

// The place of an instant on an axis that ends at another one.
pub fn x(end: u64, t: u64) -> u64 {
    if end <= t {
        return RIGHT;
    }
    LEFT.saturating_add(t.saturating_mul(LENGTH) / end)
}

// The places of instants by task number.
pub fn places(end: u64, instants: &[u32; MOST_TASKS]) -> [u64; MOST_TASKS] {
    instants.map(|t| x(end, u64::from(t)))
}

// The middle between two places, by task number.
pub fn middles(from: &[u64; MOST_TASKS], to: &[u64; MOST_TASKS]) -> [u64; MOST_TASKS] {
    let mut found = *from;
    for (a, &b) in found.iter_mut().zip(to) {
        *a = middle(*a, b);
    }
    found
}

// The axis reaches the response and every deadline, but no farther than four times the response.
pub fn end_of(deadlines: &[u32; MOST_TASKS], response: u64, n: usize) -> u64 {
    deadlines
        .iter()
        .take(n)
        .fold(response, |end, &d| end.max(u64::from(d)))
        .min(response.saturating_mul(4))
}
