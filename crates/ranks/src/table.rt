// The ranks, in a table: what is known is kept, so that each arrow is looked at once.
ghost use Rattle.std.specs.Prelude.{◌≡◌, cond, ◌<◌, ltb};
ghost use Rattle.task_set.specs.Bounded.{tabulate};
ghost use Rattle.plan.specs.Rules.{most_tasks};
ghost use Rattle.ranks.specs.Ranks.{own_rank, rank_of, types_of};
ghost use Rattle.ranks.specs.Steps.{AllTasks, GreatestFound, Noted, RankFound, Ready};

use plan::{MOST_PAIRS, MOST_TASKS, MOST_TYPES, Plan};
use ranks_arrows::successors;

// A multiple of each of 1 to 8.
pub const PARTS: u64 = 840;

// 840 times the average worst time of t over the types that it can use.
fn own_rank(wcet: &[u32; MOST_PAIRS], t: usize) -> u64
    requires { 0 < types_of wcet.now t }
    ensures { result ≡ own_rank wcet.now t }
{
    let mut types: u64 = 0;
    let mut total: u64 = 0;
    for k in 0..MOST_TYPES {
        let time = plan::time_of(wcet, t, k);
        total += u64::from(time);
        types += u64::from(0 < time);
    }
    PARTS * total / types
}

// A plan that ranks are found for, and the rank of each task that is known, with 0 for the others. No rank is computed twice.
#[derive(Drop)]
struct Known<'a> {
    plan: &'a Plan,
    table: [u64; MOST_TASKS],
    ghost ready: { Ready plan.now.wcet plan.now.predecessors plan.now.tasks },
    ghost noted: { ∥ Noted plan.now.wcet plan.now.predecessors plan.now.tasks table ∥₁ },
}

// A call ends because each call within is for tasks at later positions of a legal order.
impl Known<'_> {
    // The rank of task t: the table has it if it is known, and afterwards it has it.
    #[cycle(computed_rank_greatest_rank_rank)]
    fn rank(&mut self, t: usize) -> u64
        requires { t < self.old.plan.now.tasks }
        ensures found { let p = self.old.plan.now in
            RankFound p.wcet p.predecessors p.tasks t self.old.table self.new.table result }
        ensures kept { self.new.plan ≡ self.old.plan }
    {
        let known = self.table[t];
        if known != 0 {
            return known;
        }
        self.computed_rank(t)
    }

    // The rank of task t from those of its successors, noted in the table.
    #[cycle(computed_rank_greatest_rank_rank)]
    fn computed_rank(&mut self, t: usize) -> u64
        requires { t < self.old.plan.now.tasks }
        ensures found { let p = self.old.plan.now in
            RankFound p.wcet p.predecessors p.tasks t self.old.table self.new.table result }
        ensures kept { self.new.plan ≡ self.old.plan }
    {
        let after = successors(&self.plan.predecessors, self.plan.tasks, t);
        let most = self.greatest_rank(after);
        let r = own_rank(&self.plan.wcet, t) + most;
        self.table[t] = r;
        r
    }

    // The greatest rank of the tasks of a set, and 0 for none.
    #[cycle(computed_rank_greatest_rank_rank)]
    fn greatest_rank(&mut self, remaining: u64) -> u64
        requires { AllTasks self.old.plan.now.tasks remaining }
        ensures found { let p = self.old.plan.now in
            GreatestFound p.wcet p.predecessors p.tasks remaining self.old.table self.new.table result }
        ensures kept { self.new.plan ≡ self.old.plan }
    {
        if remaining == 0 {
            return 0;
        }
        let t = task_set::lowest_member(remaining) as usize;
        let one = self.rank(t);
        let left = task_set::without_lowest(remaining);
        let most = self.greatest_rank(left);
        one.max(most)
    }
}

// The rank of each task, and 0 at numbers past the last task.
pub fn table_of(p: &Plan) -> [u64; MOST_TASKS]
    requires { Ready p.now.wcet p.now.predecessors p.now.tasks }
    ensures { result ≡ tabulate most_tasks (λ t. cond (ltb t p.now.tasks) (rank_of p.now.wcet p.now.predecessors p.now.tasks t) 0) }
{
    let mut known = Known {
        plan: p,
        table: [0; MOST_TASKS],
    };
    for t in 0..p.tasks {
        known.rank(t);
    }
    known.table
}
