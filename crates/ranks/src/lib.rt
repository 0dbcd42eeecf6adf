// Ranks of tasks (document 02, 8): 840 times a task's average worst time, plus the greatest rank among its successors.
#![tactic(auto)]

ghost use Rattle.std.specs.Prelude.{◌≡◌};
ghost use Rattle.ranks.specs.Ranks.{number_of, ranked, ranking};

use plan::{MOST_TASKS, Plan};

mod table;

// Why a plan has no ranks.
#[derive(Clone, Copy, PartialEq, Eq)]
pub enum Unranked {
    // It breaks a rule.
    Faulty,
    // Arrows lead from a task back to itself.
    Circular,
}

impl Unranked {
    // The number of the refusal.
    pub fn number(self) -> u32
        ensures { result ≡ number_of self }
    {
        match self {
            Unranked::Faulty => 8,
            Unranked::Circular => 23,
        }
    }
}

// The rank of each task of a plan, with zeros past the last task.
pub fn ranks(p: &Plan) -> Result<[u64; MOST_TASKS], Unranked>
    ensures { ranking result ≡ ranked p.now }
{
    if !plan_rules::plan_ok(p) {
        return Err(Unranked::Faulty);
    }
    if ranks_arrows::leads_back(&p.predecessors, p.tasks) {
        return Err(Unranked::Circular);
    }
    Ok(table::table_of(p))
}
