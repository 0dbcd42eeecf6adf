// How many bytes the margins have as text.
ghost use Rattle.std.specs.Prelude.{◌≡◌, ◌<◌, ◌≤◌, ◌*◌, length};
ghost use Rattle.plan.specs.Rules.{most_tasks};
ghost use Rattle.table_slack_lines.specs.SlackText.{signed_field, slack_line, slack_line_of, slack_lines, slacks_text};

use plan::{MOST_TASKS, Plan};
use simulation::Simulation;
use slack::{Parts, Slacks};
use table_lines::{decimal_length, instant_of, total_length};

// With the byte that ends it.
fn signed_length(s: Parts) -> usize
    ensures { (result ≡ length (signed_field s 10)) × (result ≤ 22) }
{
    decimal_length(s.size) + usize::from(s.negative) + 1
}

fn slack_length(t: usize, d: usize, f: usize, x: Parts) -> usize
    ensures { (result ≡ length (slack_line t d f x)) × (result ≤ 85) }
{
    decimal_length(t) + decimal_length(d) + decimal_length(f) + signed_length(x) + 3
}

fn task_length(p: &Plan, s: &Simulation, r: &Slacks, t: usize) -> usize
    requires { t < most_tasks }
    ensures { (result ≤ 85) × (result ≡ length (slack_line_of p.now.deadlines s.now.finishes r.now.slacks t)) }
{
    let d = plan::deadline_of(&p.deadlines, t);
    if d == 0 {
        return 0;
    }
    let x = slack::parts_of(r.slacks[t]);
    slack_length(t, d as usize, instant_of(&s.finishes, t), x)
}

// How many bytes the lines of all tasks with a deadline have.
fn tasks_length(p: &Plan, s: &Simulation, r: &Slacks) -> usize
    ensures { (result ≤ most_tasks * 85) × (result ≡ length (slack_lines p.now.deadlines s.now.finishes r.now.slacks)) }
{
    total_length(MOST_TASKS, |t| task_length(p, s, r, t))
}

// How many bytes the whole text has.
pub fn slacks_length(p: &Plan, s: &Simulation, r: &Slacks) -> usize
    ensures { result ≡ length (slacks_text p.now s.now r.now) }
{
    if r.any {
        return tasks_length(p, s, r)
            + signed_length(slack::parts_of(r.least))
            + decimal_length(r.task)
            + 3;
    }
    13
}
