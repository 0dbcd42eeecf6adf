// The live run: start and tick (document 01, "Running rules", Start, Tick).
#![tactic(auto)]

ghost use Rattle.std.specs.Prelude.{◌≡◌};
ghost use Rattle.live.specs.States.{no_state};
ghost use Rattle.live.specs.Steps.{answered};
ghost use Rattle.live.specs.Ticks.{started, ticked};

mod verdicts;
mod walk;

use plan::{Constraint, Plan, Verdict};

// A run state: the instant, how many tasks of the order have started, the set of finished tasks, and each task's start
// and finish instant, by task number, 0 until it has one.
#[repr(C)]
#[derive(Clone, Copy)]
pub struct State {
    pub plan: Plan,
    pub constraint: Constraint,
    pub instant: u32,
    pub started: usize,
    pub finished: u64,
    pub starts: [u32; plan::MOST_TASKS],
    pub finishes: [u32; plan::MOST_TASKS],
}

// What start and a tick answer, as C has it: a refusal's number and place, or 0 and 0; the set of tasks just started; the state.
#[repr(C)]
#[derive(Drop)]
pub struct Ticked {
    pub number: u32,
    pub place: usize,
    pub started: u64,
    pub state: State,
}

pub fn no_state() -> State
    ensures { result ≡ no_state }
{
    let plan = plan::no_plan();
    let constraint = plan::no_constraint();
    State {
        plan,
        constraint,
        instant: 0,
        started: 0,
        finished: 0,
        starts: [0; plan::MOST_TASKS],
        finishes: [0; plan::MOST_TASKS],
    }
}

// The state after the walk of instant 0 and the tasks that it started; or the check's refusal with an all-zero state.
pub fn start(p: Plan, c: Constraint) -> Ticked
    ensures { result ≡ started p c }
{
    let mut state = no_state();
    if let Err(v) = plan_check::checked(&p, &c) {
        return Ticked {
            number: v.number,
            place: v.place,
            started: 0,
            state,
        };
    }
    state.plan = p;
    state.constraint = c;
    let m = live_marks::mark_positions(&state.plan, &state.constraint, &state.starts, 0, 0);
    let started = walk::walk_on(&mut state, &m.users, 0);
    Ticked {
        number: 0,
        place: 0,
        started,
        state,
    }
}

impl State {
    // One instant on, with the reported tasks finished: the tasks that then started; or a refusal, and the state is as it was.
    fn advance(&mut self, report: u64) -> Result<u64, Verdict>
        ensures { answered result self.new ≡ ticked self.old report }
    {
        let m = verdicts::judge(self, report)?;
        self.instant += 1;
        self.finished |= report;
        live_report::stamp(&mut self.finishes, report, self.instant);
        let running = task_set::difference(m.started, self.finished);
        Ok(walk::walk_on(self, &m.users, running))
    }

    // The state one instant on, with the reported tasks finished, and the tasks that then started; or a refusal, with the
    // state as it was. Both answers are written out: one constructor for both would lay a copy of the state more on the stack.
    pub fn tick(mut self, report: u64) -> Ticked
        ensures { result ≡ ticked self report }
    {
        // Each arm makes the answer itself: a function that made it for both, and for start, would copy the state once more.
        match self.advance(report) {
            Ok(started) => Ticked {
                number: 0,
                place: 0,
                started,
                state: self,
            },
            Err(v) => Ticked {
                number: v.number,
                place: v.place,
                started: 0,
                state: self,
            },
        }
    }
}
