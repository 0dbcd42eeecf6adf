// The bench proposes the order (document 02, 8): a plan alone gives a constraint, or is refused.
#![tactic(auto)]

ghost use Rattle.std.specs.Prelude.{◌≡◌, ◌≤◌};
ghost use Rattle.plan.specs.Refusals.{verdict};
ghost use Rattle.runs.specs.Running.{bound};
ghost use Rattle.adoption_theory.specs.Schedules.{greatest_finish};
ghost use Rattle.proposal_theory.specs.Proposals.{proposed, schedule_by};
ghost use Rattle.proposal.specs.Steps.{answered};

use plan::{Constraint, Plan};
use proposal_theory::Proposal;
use ranks::Unranked;

mod placing;

// The constraint of the schedule in which the tasks are placed by falling rank.
fn constraint_for(p: &Plan) -> Result<Constraint, Unranked>
    ensures { answered result ≡ proposed p.now }
{
    let ranks = ranks::ranks(p)?;
    let keys = proposal_order::rank_keys(&ranks);
    let by_rank = proposal_order::by_falling(&keys, p.tasks);
    Ok(placing::constraint_of(p, &by_rank))
}

// What the bench proposes for a plan: a constraint that the check takes, with a bound of at most the greatest finish of the schedule
// that it comes from. 8 where the plan breaks a rule, and 23 exactly where arrows lead from a task back to itself.
pub fn propose(p: Plan) -> Proposal
    ensures value { result ≡ proposed p }
    ensures passes { result.number ≡ 0 → (verdict p result.constraint).number ≡ 0 }
    ensures in_time { result.number ≡ 0 → bound p result.constraint ≤ greatest_finish (schedule_by p) }
{
    match constraint_for(&p) {
        Ok(constraint) => Proposal {
            number: 0,
            place: 0,
            constraint,
        },
        Err(reason) => Proposal {
            number: reason.number(),
            place: 0,
            constraint: plan::no_constraint(),
        },
    }
}
