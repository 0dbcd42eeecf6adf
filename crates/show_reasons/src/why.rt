// `why`: what held each task until its start in the run of worst times, in the order; then the chain of tasks that makes R.
use crate::chain;
use crate::held::{Row, Run};
use plan::{Constraint, Plan};
use show_words::{names, put};
use std::alloc::AllocError;

fn put_awaited(out: &mut Vec<u8>, set: u64) -> Result<(), AllocError> {
    if set != 0 {
        names::tasks(out, set)?;
        put::text(out, b", which it waits for")?;
    }
    Ok(())
}

// All units of a type that has several.
fn put_all(out: &mut Vec<u8>, units: u32) -> Result<(), AllocError> {
    if units == 2 {
        put::text(out, b"both")
    } else {
        put::words(out, b"all ", u64::from(units), b"")
    }
}

fn put_one_unit(out: &mut Vec<u8>, kind: usize, t: usize) -> Result<(), AllocError> {
    put::words(out, b"the unit of type ", kind as u64, b", which ")?;
    names::task(out, t)?;
    put::text(out, b" had")
}

fn put_units(out: &mut Vec<u8>, r: &Row) -> Result<(), AllocError> {
    put_all(out, r.units)?;
    put::words(out, b" units of type ", r.kind as u64, b", taken until ")?;
    names::tasks(out, r.freeing)?;
    put::text(out, b" finished")
}

// What stands between a reason and those before it, if there are any.
fn put_also(out: &mut Vec<u8>, others: bool) -> Result<(), AllocError> {
    if others {
        put::text(out, b"; ")?;
    }
    Ok(())
}

fn put_freeing(out: &mut Vec<u8>, run: &Run, r: &Row) -> Result<(), AllocError> {
    if let Some(first) = run.first_of(r.freeing) {
        put_also(out, r.awaited != 0)?;
        if r.units == 1 {
            put_one_unit(out, r.kind, first)?;
        } else {
            put_units(out, r)?;
        }
    }
    Ok(())
}

fn put_released(out: &mut Vec<u8>, r: &Row) -> Result<(), AllocError> {
    if r.released {
        put_also(out, !r.waits_for_none())?;
        let start = u64::from(r.start);
        put::words(out, b"its N line: not before ", start, b"")?;
    }
    Ok(())
}

fn put_behind(out: &mut Vec<u8>, r: &Row) -> Result<(), AllocError> {
    if let Some(before) = r.behind {
        put_also(out, !r.waits_for_none() | r.released)?;
        put::text(out, b"the order: ")?;
        names::task(out, before)?;
        put::text(out, b", just before it, starts only then")?;
    }
    Ok(())
}

fn put_reasons(out: &mut Vec<u8>, run: &Run, r: &Row) -> Result<(), AllocError> {
    if r.start == 0 {
        return put::text(out, b"nothing");
    }
    put_awaited(out, r.awaited)?;
    put_freeing(out, run, r)?;
    put_released(out, r)?;
    put_behind(out, r)
}

fn put_row(out: &mut Vec<u8>, run: &Run, r: &Row) -> Result<(), AllocError> {
    put::right(out, r.task as u64, 4)?;
    put::under(out, b"type", 1, r.kind as u64)?;
    put::under(out, b"start", run.digits, u64::from(r.start))?;
    put::under(out, b"finish", run.digits, u64::from(r.finish))?;
    put::text(out, b"  ")?;
    put_reasons(out, run, r)?;
    put::end_line(out)
}

// Puts something of each task in the order.
fn put_each<F: Fn(&mut Vec<u8>, &Row) -> Result<(), AllocError>>(
    out: &mut Vec<u8>,
    run: &Run,
    write: F,
) -> Result<(), AllocError>
    requires { F.IsAlwaysCallable write }
{
    for i in 0..run.plan.tasks {
        write(out, &run.row(i))?;
    }
    Ok(())
}

fn put_heads(out: &mut Vec<u8>, digits: usize) -> Result<(), AllocError> {
    put::heads(
        out,
        &[(b"type", 1), (b"start", digits), (b"finish", digits)],
    )?;
    put::text(out, b"  held until its start by\n")
}

// Of a plan that the check takes. Plan and constraint come by value, as the bound takes them.
pub fn show(out: &mut Vec<u8>, p: Plan, c: Constraint) -> Result<(), AllocError> {
    let s = simulation::bound(p, c);
    let run = Run {
        plan: p,
        constraint: c,
        simulation: s,
        digits: put::digits(u64::from(s.response)),
    };
    let chain = chain::of(&run);
    put_heads(out, run.digits)?;
    put_each(out, &run, |out, r| put_row(out, &run, r))?;
    chain::begin(out, &run)?;
    put_each(out, &run, |out, r| chain::put_link(out, &run, r, &chain))?;
    chain::put_sum(out, &run)
}
