// Schedules that were worked out elsewhere (document 02, 5): taken over as a constraint, or refused.
#![tactic(auto)]

ghost use Rattle.std.specs.Prelude.{◌≡◌, ◌≤◌};
ghost use Rattle.plan.specs.Refusals.{verdict};
ghost use Rattle.runs.specs.Running.{bound};
ghost use Rattle.adoption_theory.specs.Schedules.{adopted, greatest_finish, listed as listed_of};
ghost use Rattle.adoption.specs.Steps.{answer};

use adoption_judge::judge;
use adoption_order::in_order;
use adoption_theory::{Adoption, Record, Schedule};
use listing::listed;
use plan::{Constraint, Plan, Verdict};

mod listing;

// What is answered with a verdict and a constraint.
fn answer(v: Verdict, constraint: Constraint) -> Adoption
    ensures { result ≡ answer v constraint }
{
    Adoption {
        number: v.number,
        place: v.place,
        constraint,
    }
}

// The constraint of a schedule by columns. It passes the check, and its bound is at most the greatest finish.
pub fn adopt_schedule(p: Plan, s: Schedule) -> Adoption
    ensures value { result ≡ adopted p s }
    ensures passes { result.number ≡ 0 → (verdict p result.constraint).number ≡ 0 }
    ensures in_time { result.number ≡ 0 → bound p result.constraint ≤ greatest_finish s }
{
    match judge(&p, &s) {
        Ok(()) => answer(Verdict::none(), in_order(&s)),
        Err(refusal) => answer(refusal, plan::no_constraint()),
    }
}

// The constraint of a lent list of records.
pub fn adopt(p: Plan, records: &[Record]) -> Adoption
    ensures value { result ≡ adopted p (listed_of records.now) }
    ensures passes { result.number ≡ 0 → (verdict p result.constraint).number ≡ 0 }
    ensures in_time { result.number ≡ 0 → bound p result.constraint ≤ greatest_finish (listed_of records.now) }
{
    adopt_schedule(p, listed(records))
}
