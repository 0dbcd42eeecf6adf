// The rules of a plan (document 01, "The plan").
#![tactic(auto)]

ghost use Rattle.std.specs.Prelude.{◌≡◌, ◌<◌, ◌≤◌};
ghost use Rattle.task_set.specs.Bounded.{all};
ghost use Rattle.plan.specs.Rules.{counts_ok, instant_ok, most_pairs, most_tasks, most_types, plan_ok, predecessors_ok, units_ok};
ghost use Rattle.plan.specs.Steps.{no_type_from, pair_fits, pair_fits_at, rest_ok, types_ok};

use number_tests::all_below;
use plan::{
    LATEST_DEADLINE, LATEST_RELEASE, LONGEST_TIME, MOST_PAIRS, MOST_TASKS, MOST_TYPES, MOST_UNITS,
    Plan, instant_of, is_usable, predecessors_of,
};

fn counts_ok(types: usize, tasks: usize) -> bool
    ensures { result ≡ counts_ok types tasks }
{
    (1 <= types) & (types <= MOST_TYPES) & ((1 <= tasks) & (tasks <= MOST_TASKS))
}

// Whether type k has a count of units that is allowed.
fn units_ok(types: usize, units: &[u32; MOST_TYPES], k: usize) -> bool
    requires { k < most_types }
    ensures { result ≡ units_ok types units.now k }
{
    let n = units[k];
    let present = k < types;
    present & ((1 <= n) & (n <= MOST_UNITS)) | !present & (n == 0)
}

fn all_units_ok(p: &Plan) -> bool
    ensures { result ≡ all most_types (units_ok p.now.types p.now.units) }
{
    all_below(MOST_TYPES, |k| units_ok(p.types, &p.units, k))
}

// Whether a pair is 0 and 0, or 1 <= best <= worst <= LONGEST_TIME.
fn pair_fits(best: u32, worst: u32) -> bool
    ensures { result ≡ pair_fits best worst }
{
    (best <= worst) & ((worst <= LONGEST_TIME) & ((worst == 0) | (1 <= best)))
}

// All pairs are tried, without a branch: the compiler then tests several at once.
fn all_pairs_fit(p: &Plan) -> bool
    ensures { result ≡ all most_pairs (pair_fits_at p.now.bcet p.now.wcet) }
{
    all_below(MOST_PAIRS, |i| pair_fits(p.bcet[i], p.wcet[i]))
}

// Whether task t can use no type from n on. Each is tried, without a branch.
fn no_type_from(wcet: &[u32; MOST_PAIRS], t: usize, n: usize) -> bool
    requires { n ≤ most_types }
    ensures { result ≡ no_type_from wcet.now t n }
{
    let mut none = true;
    for k in n..MOST_TYPES {
        none = none & !is_usable(wcet, t, k);
    }
    none
}

// Whether task number t can use some type and no absent one, or, where it is absent, none.
fn types_ok(types: usize, tasks: usize, wcet: &[u32; MOST_PAIRS], t: usize) -> bool
    requires { types ≤ most_types }
    ensures { result ≡ types_ok types tasks wcet.now t }
{
    let none = no_type_from(wcet, t, 0);
    if tasks <= t {
        return none;
    }
    !none & no_type_from(wcet, t, types)
}

fn predecessors_ok(tasks: usize, predecessors: &[u64; MOST_TASKS], t: usize) -> bool
    ensures { result ≡ predecessors_ok tasks predecessors.now t }
{
    let s = predecessors_of(predecessors, t);
    let present = t < tasks;
    let known = task_set::members_below(s, tasks) == s;
    present & (!task_set::contains(s, t) & known) | !present & (s == 0)
}

// Whether each task number, present or absent, keeps the rules of types and predecessors.
fn all_tasks_ok(p: &Plan) -> bool
    requires { p.now.types ≤ most_types }
    ensures { result ≡ all most_tasks (rest_ok p.now.types p.now.tasks p.now.wcet p.now.predecessors) }
{
    all_below(MOST_TASKS, |t| {
        types_ok(p.types, p.tasks, &p.wcet, t) & predecessors_ok(p.tasks, &p.predecessors, t)
    })
}

// Whether task number t has none of these instants, or is a task of the plan and has one that is not too late.
fn instant_ok(tasks: usize, latest: u32, instants: &[u32; MOST_TASKS], t: usize) -> bool
    ensures { result ≡ instant_ok tasks latest instants.now t }
{
    let i = instant_of(instants, t);
    (i == 0) | ((t < tasks) & (i <= latest))
}

fn all_instants_ok(tasks: usize, latest: u32, instants: &[u32; MOST_TASKS]) -> bool
    ensures { result ≡ all most_tasks (instant_ok tasks latest instants.now) }
{
    all_below(MOST_TASKS, |t| instant_ok(tasks, latest, instants, t))
}

// Whether the plan breaks no rule: 8 alone. It is lent, so that nothing is copied.
pub fn plan_ok(p: &Plan) -> bool
    ensures { result ≡ plan_ok p.now }
{
    let tasks = p.tasks;
    if !counts_ok(p.types, tasks) {
        return false;
    }
    all_units_ok(p)
        & (all_pairs_fit(p)
            & all_tasks_ok(p)
            & (all_instants_ok(tasks, LATEST_DEADLINE, &p.deadlines)
                & all_instants_ok(tasks, LATEST_RELEASE, &p.releases)))
}
