// Whether a run state is sound (document 01, refusal 12).
ghost use Rattle.std.specs.Prelude.{◌≡◌, ◌≤◌};
ghost use Rattle.task_set.specs.Bounded.{all};
ghost use Rattle.task_set.specs.Sets.{has, width};
ghost use Rattle.plan.specs.Rules.{most_tasks, most_types};
ghost use Rattle.live_sound.specs.Steps.{all_times_fit, enough_for, sound_by, times_fit};

use live_marks::Marks;
use number_tests::all_below;
use plan::{LAST_INSTANT, MOST_TASKS, MOST_TYPES, Plan};

// The clauses about the start and the finish of a task, from what a state has of it in six places.
fn times_fit(begun: bool, done: bool, release: u32, start: u32, finish: u32, instant: u32) -> bool
    ensures { result ≡ times_fit begun done release start finish instant }
{
    let started = !begun | (start <= instant);
    let released = !begun | (release <= start);
    let ended = !done | ((start < finish) & (finish <= instant));
    let unused = (begun | (start == 0)) & (done | (finish == 0));
    (!done | begun) & (started & (released & (ended & unused)))
}

// They hold of each task.
fn all_times_fit(
    releases: &[u32; MOST_TASKS],
    starts: &[u32; MOST_TASKS],
    finishes: &[u32; MOST_TASKS],
    started: u64,
    finished: u64,
    instant: u32,
) -> bool
    ensures { result ≡ all width
        (all_times_fit releases.now starts.now finishes.now started finished instant) }
{
    all_below(MOST_TASKS, |t| {
        let begun = task_set::contains(started, t);
        let done = task_set::contains(finished, t);
        let release = plan::release_of(releases, t);
        times_fit(begun, done, release, starts[t], finishes[t], instant)
    })
}

// No type has more running tasks than units.
fn enough_units(units: &[u32; MOST_TYPES], users: &[u64; MOST_TYPES], running: u64) -> bool
    ensures { result ≡ all most_types (enough_for units.now users.now running) }
{
    all_below(
        MOST_TYPES,
        |k| task_set::member_count(users[k] & running) <= units[k],
    )
}

// Whether each of the first tasks is finished.
pub fn is_over(tasks: usize, finished: u64) -> bool
    requires { tasks ≤ most_tasks }
    ensures { result ≡ all tasks (has finished) }
{
    let done = task_set::members_below(finished, tasks);
    task_set::member_count(done) as usize == tasks
}

// The clauses after the first two, of a state with these marks, starts and finishes: the state itself is a struct of a crate above.
pub fn is_sound(
    p: &Plan,
    m: &Marks,
    starts: &[u32; MOST_TASKS],
    finishes: &[u32; MOST_TASKS],
    over: bool,
    finished: u64,
    instant: u32,
) -> bool
    ensures { result ≡ sound_by p.now.units p.now.releases starts.now finishes.now m.now
        over finished instant }
{
    let running = task_set::difference(m.started, finished);
    let early = (instant <= LAST_INSTANT) & (over | (instant < LAST_INSTANT));
    all_times_fit(&p.releases, starts, finishes, m.started, finished, instant)
        & ((m.spent & running) == 0)
        & (enough_units(&p.units, &m.users, running) & early)
}
