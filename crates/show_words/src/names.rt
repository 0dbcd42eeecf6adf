// Tasks and types by their numbers: "task 3", "tasks 3 and 5", "tasks 3, 5 and 8".
use crate::put;
use std::alloc::AllocError;

// What stands before a member: nothing before the first, "and" before the last.
fn separator(out: &mut Vec<u8>, set: u64, t: usize) -> Result<(), AllocError> {
    let before = task_set::member_count(task_set::members_below(set, t));
    let all = task_set::member_count(set);
    if before == 0 {
        return Ok(());
    }
    if before.saturating_add(1) < all {
        put::text(out, b", ")
    } else {
        put::text(out, b" and ")
    }
}

// The members alone.
pub fn numbers(out: &mut Vec<u8>, set: u64) -> Result<(), AllocError> {
    for t in 0..plan::MOST_TASKS {
        if task_set::contains(set, t) {
            separator(out, set, t)?;
            put::number(out, t as u64)?;
        }
    }
    Ok(())
}

// The members after a word for one or a word for several.
pub fn named(out: &mut Vec<u8>, one: &[u8], several: &[u8], set: u64) -> Result<(), AllocError> {
    if task_set::member_count(set) == 1 {
        put::text(out, one)?;
    } else {
        put::text(out, several)?;
    }
    numbers(out, set)
}

pub fn task(out: &mut Vec<u8>, t: usize) -> Result<(), AllocError> {
    put::words(out, b"task ", t as u64, b"")
}

pub fn tasks(out: &mut Vec<u8>, set: u64) -> Result<(), AllocError> {
    named(out, b"task ", b"tasks ", set)
}
