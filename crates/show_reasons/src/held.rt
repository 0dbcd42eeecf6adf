// What held a task until its start, in the run of worst times.
use number_tests::set_of;
use plan::{Constraint, Plan};
use show_words::get::entry;
use simulation::Simulation;
use task_set::{contains, inserted, member_count};

// A plan and a constraint that the check takes, with their run of worst times, and how many digits its instants may have.
#[derive(Clone, Copy)]
pub struct Run {
    pub plan: Plan,
    pub constraint: Constraint,
    pub simulation: Simulation,
    pub digits: usize,
}

// A task of the order, with what held it until its start. At instant 0 nothing holds a task.
#[derive(Clone, Copy)]
pub struct Row {
    pub task: usize,
    // Its type, and how many units of this there are.
    pub kind: usize,
    pub units: u32,
    pub start: u32,
    pub finish: u32,
    // The predecessors that finish at its start.
    pub awaited: u64,
    // Where every unit of its type was taken just before its start: the tasks that had one and finish at its start.
    pub freeing: u64,
    // Whether its start is its not-before instant.
    pub released: bool,
    // The task just before it in the order, if that starts at its start too.
    pub behind: Option<usize>,
}

impl Row {
    // Whether it waited for the finish of no task.
    pub fn waits_for_none(&self) -> bool {
        (self.awaited | self.freeing) == 0
    }
}

// Of the tasks that had a unit of a type, those that finish, if no unit was left; otherwise none.
fn freed(taken: u64, units: u32, finished: u64) -> u64 {
    if member_count(taken) < units {
        0
    } else {
        taken & finished
    }
}

impl Run {
    // The tasks that finish at an instant.
    pub fn finishing(&self, at: u32) -> u64 {
        set_of(self.plan.tasks, |t| {
            entry(&self.simulation.finishes, t) == at
        })
    }

    // The tasks that run just before an instant.
    fn running_before(&self, at: u32) -> u64 {
        let s = &self.simulation;
        set_of(self.plan.tasks, |t| {
            (entry(&s.starts, t) < at) & (at <= entry(&s.finishes, t))
        })
    }

    // The tasks that use a type.
    fn using(&self, kind: usize) -> u64 {
        let c = &self.constraint;
        c.order
            .iter()
            .zip(c.chosen.iter())
            .take(self.plan.tasks)
            .filter(|&(_, &k)| k == kind)
            .fold(0, |found, (&t, _)| inserted(found, t))
    }

    // The first task of a set in the order.
    pub fn first_of(&self, set: u64) -> Option<usize> {
        self.constraint
            .order
            .iter()
            .take(self.plan.tasks)
            .copied()
            .find(|&t| contains(set, t))
    }

    // The task just before a position of the order, if it starts at this instant and that is not 0.
    fn starting_before(&self, i: usize, at: u32) -> Option<usize> {
        let before = entry(&self.constraint.order, i.checked_sub(1)?);
        ((0 < at) & (entry(&self.simulation.starts, before) == at)).then_some(before)
    }

    // The task at a position of the order.
    pub fn row(&self, i: usize) -> Row {
        let (p, s) = (&self.plan, &self.simulation);
        let task = entry(&self.constraint.order, i);
        let kind = entry(&self.constraint.chosen, i);
        let units = entry(&p.units, kind);
        let start = entry(&s.starts, task);
        let finished = self.finishing(start);
        let taken = self.using(kind) & self.running_before(start);
        Row {
            task,
            kind,
            units,
            start,
            finish: entry(&s.finishes, task),
            awaited: entry(&p.predecessors, task) & finished,
            freeing: freed(taken, units, finished),
            released: (0 < start) & (entry(&p.releases, task) == start),
            behind: self.starting_before(i, start),
        }
    }
}
