// The simulation of a plan under a constraint, and the bound (document 01, "Running rules").
#![tactic(auto)]

ghost use Rattle.std.specs.Prelude.{◌≡◌, ◌+◌, ◌≤◌};
ghost use Rattle.dispatch_theory.specs.Sums.{sum};
ghost use Rattle.runs.specs.Running.{greatest_release, worst};
ghost use Rattle.simulation.specs.Simulated.{answered, not_run, simulated, worst_case};

use plan::{Constraint, MOST_TASKS, Plan, Verdict};
pub use simulation_run::Simulation;
use simulation_run::run;
use simulation_times::{chosen_times, first_outside};
pub use simulation_waits::latest_finish;

// Why there is no run, and zeros.
fn not_run(v: Verdict) -> Simulation
    ensures { result ≡ not_run v }
{
    Simulation {
        number: v.number,
        place: v.place,
        response: 0,
        starts: [0; MOST_TASKS],
        finishes: [0; MOST_TASKS],
    }
}

// An answer in the form that C reads.
fn told(answer: Result<Simulation, Verdict>) -> Simulation
    ensures { result ≡ answered answer }
{
    match answer {
        Ok(simulation) => simulation,
        Err(v) => not_run(v),
    }
}

// The run with the given times, one for each task; or the first of 8 to 11, 17 and 18 that refuses it.
fn run_with(p: &Plan, c: &Constraint, times: &[u32]) -> Result<Simulation, Verdict>
    ensures { answered result ≡ simulated p.now c.now times.now }
{
    plan_check::checked(p, c)?;
    if times.len() != p.tasks {
        return Err(Verdict::refused(17, times.len()));
    }
    match first_outside(p, c, times) {
        Some(t) => Err(Verdict::refused(18, t)),
        None => Ok(run(p, c, times)),
    }
}

// The run with the worst times of the chosen types; or the first of 8 to 11 that refuses it.
fn run_worst(p: &Plan, c: &Constraint) -> Result<Simulation, Verdict>
    ensures { answered result ≡ worst_case p.now c.now }
{
    plan_check::checked(p, c)?;
    let worst = chosen_times(&p.wcet, c);
    Ok(run(p, c, &worst))
}

// The run with the given times, in the form that C reads.
pub fn simulate(p: Plan, c: Constraint, times: &[u32]) -> Simulation
    ensures { result ≡ simulated p c times.now }
{
    told(run_with(&p, &c, times))
}

// The run with the worst times, in the form that C reads: its response is the bound, at most the greatest not-before instant plus
// the sum of these times.
pub fn bound(p: Plan, c: Constraint) -> Simulation
    ensures { (result ≡ worst_case p c) × (result.response ≤ greatest_release p + sum p.tasks (worst p c)) }
{
    told(run_worst(&p, &c))
}
