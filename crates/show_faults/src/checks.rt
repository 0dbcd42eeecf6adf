// Refusals 8 to 10 of a text that could be read.
use plan::{Constraint, MOST_TASKS, MOST_TYPES, Plan};
use show_lines::lines;
use show_words::{get, names, put};
use std::alloc::AllocError;

fn has_line(text: &[u8], letter: u8, t: usize) -> bool {
    lines::find(text, letter, &[t as u64]).is_some()
}

// The tasks of the plan without a line of this letter.
fn without(text: &[u8], letter: u8, tasks: usize) -> u64 {
    number_tests::set_of(tasks, |t| !has_line(text, letter, t))
}

// The tasks with a T line and no C line.
pub fn unlisted(text: &[u8]) -> u64 {
    number_tests::set_of(
        MOST_TASKS,
        |t| has_line(text, b'T', t) && !has_line(text, b'C', t),
    )
}

fn have_or_has(out: &mut Vec<u8>, set: u64) -> Result<(), AllocError> {
    if task_set::member_count(set) == 1 {
        put::text(out, b" has")
    } else {
        put::text(out, b" have")
    }
}

// A plan that was read breaks a rule only by its tasks: there are none, or one is left out.
pub fn no_plan(out: &mut Vec<u8>, text: &[u8], tasks: usize) -> Result<(), AllocError> {
    put::text(out, b"refused 8: ")?;
    if text.is_empty() {
        return put::text(out, b"the text is empty\n");
    }
    if tasks == 0 {
        return put::text(out, b"there is no T line, so the plan has no task\n");
    }
    let set = without(text, b'T', tasks);
    names::tasks(out, set)?;
    have_or_has(out, set)?;
    put::words(
        out,
        b" no T line; tasks are numbered from 0 without a gap to the greatest, ",
        tasks as u64 - 1,
        b"",
    )?;
    put_whether_from_1(out, set)?;
    lines::quote_first(out, text, b'T', &[tasks as u64 - 1])
}

// Only task 0 is missing where tasks are counted from 1.
fn put_whether_from_1(out: &mut Vec<u8>, set: u64) -> Result<(), AllocError> {
    if set == 1 {
        put::text(out, b": are they counted from 1?\n")
    } else {
        put::text(out, b": add what is missing, or number the tasks anew\n")
    }
}

// What the missing C line of a task needs: its type, and behind which tasks it stands.
fn put_needs(out: &mut Vec<u8>, text: &[u8], before: u64, t: usize) -> Result<(), AllocError> {
    put::words(out, b"  task ", t as u64, b" can use ")?;
    names::named(out, b"type ", b"types ", usable(text, t))?;
    if before != 0 {
        put::text(out, b" and stands behind ")?;
        names::tasks(out, before)?;
    }
    put::end_line(out)
}

// No task of a text that was read stands in the order twice, so some stand in it nowhere.
pub fn missing_choice(out: &mut Vec<u8>, text: &[u8], p: &Plan) -> Result<(), AllocError> {
    put::text(out, b"refused 9: ")?;
    let set = without(text, b'C', p.tasks);
    if task_set::member_count(set) as usize == p.tasks {
        return put::text(
            out,
            b"there are no C lines; the order has one for each task\n",
        );
    }
    names::tasks(out, set)?;
    have_or_has(out, set)?;
    put::text(out, b" no C line; the order has one for each task\n")?;
    for (t, &before) in p.predecessors.iter().enumerate() {
        if task_set::contains(set, t) {
            put_needs(out, text, before, t)?;
        }
    }
    Ok(())
}

// The types on which a task can run.
fn usable(text: &[u8], t: usize) -> u64 {
    number_tests::set_of(
        MOST_TYPES,
        |k| lines::find(text, b'T', &[t as u64, k as u64]).is_some(),
    )
}

// Where an entry of the order stands: its position, counted from 0, and its line.
pub fn at_position(
    out: &mut Vec<u8>,
    number: u32,
    position: usize,
    place: usize,
) -> Result<(), AllocError> {
    put::words(out, b"refused ", u64::from(number), b" at position ")?;
    put::words(out, b"", position as u64, b" of the order, line ")?;
    put::words(out, b"", place as u64, b": ")
}

pub fn unusable_type(
    out: &mut Vec<u8>,
    text: &[u8],
    c: &Constraint,
    position: usize,
) -> Result<(), AllocError> {
    let t = get::entry(&c.order, position);
    let Some(place) = lines::find(text, b'C', &[t as u64]) else {
        return Ok(());
    };
    at_position(out, 10, position, place)?;
    put::words(out, b"task ", t as u64, b" has no T line for type ")?;
    put::words(
        out,
        b"",
        get::entry(&c.chosen, position) as u64,
        b"; it can use ",
    )?;
    names::named(out, b"type ", b"types ", usable(text, t))?;
    put::end_line(out)?;
    lines::quote(out, text, place)
}
