// The chain of tasks that makes R: from a task that finishes at R back to what held it, and so on, to a task that starts at 0 or
// that only its not-before instant held. The time until that instant is a link of its own, so that the links add up to R.
// A predecessor is preferred to a task that freed a unit, that to the not-before instant, and that to the order; of several tasks
// the first in the order is taken.
// A task that only the order held starts together with the one before it, so the time of that one adds nothing to R.
use crate::held::{Row, Run};
use show_words::{names, put};
use std::alloc::AllocError;
use task_set::{contains, inserted};

// The tasks of the chain, and those of them whose time adds nothing.
#[derive(Clone, Copy)]
pub struct Chain {
    members: u64,
    idle: u64,
}

// What a task of the chain starts at: at once, at the finish of a task that it waits for, at that of one that frees a unit, at its
// not-before instant, or with the task just before it in the order.
#[derive(Clone, Copy)]
enum Cause {
    AtOnce,
    Awaited(usize),
    Freed(usize),
    NotBefore,
    Order(usize),
}

fn cause_of(run: &Run, r: &Row) -> Cause {
    if let Some(t) = run.first_of(r.awaited) {
        Cause::Awaited(t)
    } else if let Some(t) = run.first_of(r.freeing) {
        Cause::Freed(t)
    } else if r.released {
        Cause::NotBefore
    } else if let Some(t) = r.behind {
        Cause::Order(t)
    } else {
        Cause::AtOnce
    }
}

impl Chain {
    // With what comes before a member.
    fn with_cause(self, cause: Cause) -> Chain {
        match cause {
            Cause::AtOnce | Cause::NotBefore => self,
            Cause::Awaited(t) | Cause::Freed(t) => Chain {
                members: inserted(self.members, t),
                idle: self.idle,
            },
            Cause::Order(t) => Chain {
                members: inserted(self.members, t),
                idle: inserted(self.idle, t),
            },
        }
    }
}

// The chain of the first of the tasks that finish at R. What comes before in the chain comes before in the order, so one walk back meets
// all of it.
pub fn of(run: &Run) -> Chain {
    let last = run.first_of(last_tasks(run));
    let mut chain = Chain {
        members: last.map_or(0, |t| inserted(0, t)),
        idle: 0,
    };
    for i in (0..run.plan.tasks).rev() {
        let r = run.row(i);
        if contains(chain.members, r.task) {
            chain = chain.with_cause(cause_of(run, &r));
        }
    }
    chain
}

fn put_cause(out: &mut Vec<u8>, r: &Row, cause: Cause) -> Result<(), AllocError> {
    match cause {
        Cause::AtOnce => put::text(out, b"starts at once"),
        Cause::Awaited(t) => {
            put::text(out, b"waits for ")?;
            names::task(out, t)
        }
        Cause::Freed(t) => {
            put_unit(out, r.units)?;
            put::words(out, b" of type ", r.kind as u64, b" from ")?;
            names::task(out, t)
        }
        Cause::NotBefore => put::text(out, b"starts at its not-before instant"),
        Cause::Order(t) => {
            put::text(out, b"starts with ")?;
            names::task(out, t)?;
            put::text(out, b", which comes before it in the order")
        }
    }
}

fn put_unit(out: &mut Vec<u8>, units: u32) -> Result<(), AllocError> {
    if units == 1 {
        put::text(out, b"gets the unit")
    } else {
        put::text(out, b"gets a unit")
    }
}

// The time of a task, unless it adds nothing.
fn added(r: &Row, idle: u64) -> u32 {
    if contains(idle, r.task) {
        0
    } else {
        r.finish.saturating_sub(r.start)
    }
}

// The numbers of a link.
fn put_columns(
    out: &mut Vec<u8>,
    start: u32,
    finish: u32,
    adds: u32,
    digits: usize,
) -> Result<(), AllocError> {
    put::under(out, b"start", digits, u64::from(start))?;
    put::under(out, b"finish", digits, u64::from(finish))?;
    put::under(out, b"adds", digits, u64::from(adds))?;
    put::text(out, b"  ")
}

// The time until the not-before instant of the first task.
fn put_until(out: &mut Vec<u8>, r: &Row, digits: usize) -> Result<(), AllocError> {
    put::text(out, b"   N")?;
    put_columns(out, 0, r.start, r.start, digits)?;
    names::task(out, r.task)?;
    put::words(out, b" may not start before ", u64::from(r.start), b"\n")
}

// A link of the chain, if the task is one.
pub fn put_link(out: &mut Vec<u8>, run: &Run, r: &Row, chain: &Chain) -> Result<(), AllocError> {
    if !contains(chain.members, r.task) {
        return Ok(());
    }
    let digits = run.digits;
    let cause = cause_of(run, r);
    if let Cause::NotBefore = cause {
        put_until(out, r, digits)?;
    }
    put::right(out, r.task as u64, 4)?;
    put_columns(out, r.start, r.finish, added(r, chain.idle), digits)?;
    put_cause(out, r, cause)?;
    put::end_line(out)
}

// What the links add up to; start and finish stay empty.
pub fn put_sum(out: &mut Vec<u8>, run: &Run) -> Result<(), AllocError> {
    put::text(out, b"   R")?;
    put::head(out, b"     ", run.digits)?;
    put::head(out, b"      ", run.digits)?;
    put::under(out, b"adds", run.digits, u64::from(run.simulation.response))?;
    put::end_line(out)
}

// The tasks that finish at R.
fn last_tasks(run: &Run) -> u64 {
    run.finishing(run.simulation.response)
}

// Whose finish R is, and of which of these tasks the chain is.
fn put_last(out: &mut Vec<u8>, run: &Run) -> Result<(), AllocError> {
    let set = last_tasks(run);
    let response = u64::from(run.simulation.response);
    put::words(out, b"R is ", response, b", the finish of ")?;
    names::tasks(out, set)?;
    if task_set::member_count(set) == 1 {
        return put::text(out, b". The chain of tasks that makes it:\n");
    }
    put::text(out, b". The chain of tasks that makes ")?;
    if let Some(t) = run.first_of(set) {
        names::task(out, t)?;
    }
    put::text(out, b" finish then:\n")
}

pub fn begin(out: &mut Vec<u8>, run: &Run) -> Result<(), AllocError> {
    let digits = run.digits;
    put::end_line(out)?;
    put_last(out, run)?;
    put::heads(
        out,
        &[(b"start", digits), (b"finish", digits), (b"adds", digits)],
    )?;
    put::end_line(out)
}
