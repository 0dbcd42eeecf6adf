// What a line without a fault adds to what was read.
#![tactic(auto)]

ghost use Rattle.std.specs.Prelude.{◌≡◌, cond, false, ℕ, ◌+◌, ◌≤◌, ◌<◌, max};
ghost use Rattle.task_set.specs.Sets.{insert};
ghost use Rattle.plan.specs.Rules.{most_tasks, pair_index, predecessors_of};
ghost use Rattle.text_fault.specs.Faults.{kind_of};
ghost use Rattle.text_range.specs.Ranges.{out_of_range};
ghost use Rattle.text_fill.specs.Adding.{counted, is_kind, named, number, stored};
ghost use Rattle.text_form.specs.Form.{most_bytes};

use plan::{Constraint, Plan};
use text_fault::{Kind, Seen, kind_of};
use text_form::Line;

// To the plan: each line but a C line. Times lie task by task, as plan::pair_index has it. A U line counts one type more, if there is
// room for the count.
pub fn add_to_plan(p: &mut Plan, line: Line)
    requires { ((k n : ℕ) → line ≡ Line.Units k n → p.old.types ≤ most_bytes) × (out_of_range line ≡ false) }
    ensures { p.new
        ≡ record {
          types = counted line Kind.U p.old.types;
          units = stored line Kind.U p.old.units (number line 0) (number line 1);
          tasks = cond (is_kind line Kind.T) (max p.old.tasks (number line 0 + 1)) p.old.tasks;
          bcet = stored line Kind.T p.old.bcet (pair_index (number line 0) (number line 1)) (number line 2);
          wcet = stored line Kind.T p.old.wcet (pair_index (number line 0) (number line 1)) (number line 3);
          predecessors = stored line Kind.A p.old.predecessors (number line 1)
              (insert (predecessors_of p.old.predecessors (number line 1)) (number line 0));
          deadlines = stored line Kind.D p.old.deadlines (number line 0) (number line 1);
          releases = stored line Kind.N p.old.releases (number line 0) (number line 1);
        } }
{
    match line {
        Line::Units(k, n) => {
            p.units[k as usize] = n;
            p.types += 1;
        }
        Line::Times(t, k, best, worst) => {
            let pair = plan::pair_index(t as usize, k as usize);
            p.bcet[pair] = best;
            p.wcet[pair] = worst;
            p.tasks = p.tasks.max(t as usize + 1);
        }
        Line::Arrow(from, to) => {
            let before = p.predecessors[to as usize];
            p.predecessors[to as usize] = task_set::inserted(before, from as usize);
        }
        Line::Deadline(t, d) => p.deadlines[t as usize] = d,
        Line::Release(t, i) => p.releases[t as usize] = i,
        Line::Choice(_, _) => {}
    }
}

// To the constraint: a C line, where there is room for another entry.
pub fn add_to_constraint(c: &mut Constraint, line: Line)
    requires { (t k : ℕ) → line ≡ Line.Choice t k → c.old.len < most_tasks }
    ensures { c.new
        ≡ record {
          len = counted line Kind.C c.old.len;
          order = stored line Kind.C c.old.order c.old.len (number line 0);
          chosen = stored line Kind.C c.old.chosen c.old.len (number line 1);
        } }
{
    if let Line::Choice(t, k) = line {
        c.order[c.len] = t as usize;
        c.chosen[c.len] = k as usize;
        c.len += 1;
    }
}

// To what was seen.
pub fn seen(seen: Seen, line: Line) -> Seen
    ensures { result
        ≡ record {
          kind = kind_of line;
          timed = named line Kind.T seen.timed;
          released = named line Kind.N seen.released;
          listed = named line Kind.C seen.listed;
        } }
{
    let mut seen = Seen {
        kind: kind_of(line),
        ..seen
    };
    match line {
        Line::Times(t, _, _, _) => seen.timed = task_set::inserted(seen.timed, t as usize),
        Line::Release(t, _) => seen.released = task_set::inserted(seen.released, t as usize),
        Line::Choice(t, _) => seen.listed = task_set::inserted(seen.listed, t as usize),
        _ => {}
    }
    seen
}
