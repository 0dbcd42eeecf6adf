// The timetable of worst times as a chart, in SVG: a lane for each unit, a bar for each task, arrows, deadlines, not-before
// instants and the response.
use crate::style;
use plan::{Constraint, MOST_TASKS, Plan};
use show_layout::rows::Having;
use show_layout::spread::{Numbers, spread};
use show_layout::{due, lanes, rows, scale};
use show_marks::bars::{Sets, Stroke};
use show_marks::{axis, bars, key};
use show_words::arrows;
use show_words::get::entry;
use show_words::places::{Heights, Places};
use simulation::Simulation;
use std::alloc::AllocError;

// The picture of an accepted plan. Plan and constraint come by value, as the bound takes them.
pub fn show(out: &mut Vec<u8>, p: Plan, c: Constraint) -> Result<(), AllocError> {
    draw(out, &p, &c, &simulation::bound(p, c))
}

// Where everything lies, and the sets of tasks that are drawn in a way of their own.
#[derive(Clone, Copy)]
struct Chart {
    places: Places,
    heights: Heights,
    sets: Sets,
}

// The sets of tasks, by where their bars lie on an axis that ends at an instant.
fn sets_of(
    p: &Plan,
    s: &Simulation,
    lefts: &[u64; MOST_TASKS],
    rights: &[u64; MOST_TASKS],
    end: u64,
) -> Sets {
    let n = p.tasks;
    Sets {
        narrow: bars::narrow(lefts, rights, n),
        due: due::with_instant(&p.deadlines, n),
        late: due::late(&p.deadlines, &s.finishes, n),
        beyond: due::beyond(&p.deadlines, end, n),
        released: due::with_instant(&p.releases, n),
    }
}

// Where everything lies from the left to the right, on an axis that ends at an instant.
fn laid(p: &Plan, c: &Constraint, s: &Simulation, end: u64) -> (Places, Sets) {
    let n = p.tasks;
    let lanes = lanes::of_tasks(p, c, &s.starts, &s.finishes);
    let lefts = scale::places(end, &s.starts);
    let rights = scale::places(end, &s.finishes);
    let dues = scale::places(end, &p.deadlines);
    let releases = scale::places(end, &p.releases);
    let sets = sets_of(p, s, &lefts, &rights, end);
    let spread_out = |tasks: u64, order: &[usize; MOST_TASKS], wanted: &[u64; MOST_TASKS]| {
        let numbers = Numbers {
            tasks,
            lanes: &lanes,
        };
        spread(&numbers, order, wanted, n)
    };
    let middles = scale::middles(&lefts, &rights);
    let places = Places {
        lanes,
        lefts,
        rights,
        numbers: spread_out(sets.narrow, &c.order, &middles),
        dues,
        flags: spread_out(sets.due, &due::order(&p.deadlines, n), &dues),
        releases,
        tags: spread_out(sets.released, &due::order(&p.releases, n), &releases),
    };
    (places, sets)
}

// The lanes that have rows besides their bars.
fn lanes_having(lanes: &[usize; MOST_TASKS], s: &Sets) -> Having {
    Having {
        flags: lanes::of_set(lanes, s.due),
        numbers: lanes::of_set(lanes, s.narrow),
        brackets: lanes::of_set(lanes, s.released),
    }
}

// The picture of a run of a plan, from what lies under everything to what lies over it.
fn draw(out: &mut Vec<u8>, p: &Plan, c: &Constraint, s: &Simulation) -> Result<(), AllocError> {
    let response = u64::from(s.response);
    let end = scale::end_of(&p.deadlines, response, p.tasks);
    let (places, sets) = laid(p, c, s, end);
    let size = scale::size_for(lanes::count(p));
    let rows = rows::laid(p, &size, &lanes_having(&places.lanes, &sets));
    let bottom = rows.bottom;
    let heights = rows::by_task(&places.lanes, &rows, size.bar);
    let all = Chart {
        places,
        heights,
        sets,
    };
    style::begin(out, bottom, &sets, response)?;
    axis::draw(out, end, &size, bottom)?;
    rows::draw(out, p, &rows, &size)?;
    axis::frame(out, size.top, bottom)?;
    strokes(out, &all, p.tasks)?;
    arrows::draw(out, &all.places, &all.heights, p)?;
    axis::response(out, end, response, &size, bottom)?;
    tasks(out, p, c, s, &all)?;
    let arrows = arrows::count(&p.predecessors, p.tasks);
    key::draw(out, &sets, arrows, bottom)?;
    style::end(out)
}

// The strokes of not-before instants, and of the deadlines that are on the axis.
fn strokes(out: &mut Vec<u8>, all: &Chart, n: usize) -> Result<(), AllocError> {
    let (a, h) = (&all.places, &all.heights);
    bars::strokes(
        out,
        b"open",
        all.sets.released,
        n,
        |t| Stroke {
            x: entry(&a.releases, t),
            top: entry(&h.bars, t),
            bottom: entry(&h.feet, t).saturating_add(50),
        },
    )?;
    let on_axis = task_set::difference(all.sets.due, all.sets.beyond);
    bars::strokes(
        out,
        b"due",
        on_axis,
        n,
        |t| Stroke {
            x: entry(&a.dues, t),
            top: entry(&h.bars, t).saturating_sub(60),
            bottom: entry(&h.bars, t).saturating_add(h.bar).saturating_add(40),
        },
    )
}

// The tasks in the order of the constraint. A task is a group: what is said under the pointer, its bar, its number, its deadline and its
// not-before instant.
fn tasks(
    out: &mut Vec<u8>,
    p: &Plan,
    c: &Constraint,
    s: &Simulation,
    all: &Chart,
) -> Result<(), AllocError> {
    for &t in c.order.iter().take(p.tasks) {
        bars::begin_group(out)?;
        bars::say(
            out,
            p,
            t,
            entry(&all.places.lanes, t),
            entry(&s.starts, t),
            entry(&s.finishes, t),
        )?;
        let bar = bars::bar_of(&all.places, &all.heights, t);
        bars::draw_group(out, &bar, &all.sets, entry(&p.predecessors, t))?;
    }
    Ok(())
}
