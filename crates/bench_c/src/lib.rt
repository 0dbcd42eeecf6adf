// The calls for programs in C, C++ and Python (include/benchplan.h): each is a library's own, with the library's own contract.
#![tactic(auto)]

ghost use Rattle.std.specs.Prelude.{◌≡◌, ◌+◌, ◌≤◌, length};
ghost use Rattle.plan.specs.Buffers.{at_start};
ghost use Rattle.plan.specs.Refusals.{verdict};
ghost use Rattle.plan_text.specs.Text.{read_text};
ghost use Rattle.dispatch_theory.specs.Sums.{sum};
ghost use Rattle.runs.specs.Running.{bound, greatest_release, worst};
ghost use Rattle.simulation.specs.Simulated.{simulated, worst_case};
ghost use Rattle.adoption_theory.specs.Schedules.{adopted, greatest_finish, listed};
ghost use Rattle.proposal_theory.specs.Proposals.{proposed, schedule_by};
ghost use Rattle.slack.specs.Margins.{InRange, slacks_of};
ghost use Rattle.timetable.specs.Table.{buffer_after, timetabled, worst_buffer_after, worst_timetabled};
ghost use Rattle.bench_answer.specs.Answer.{answer_text};
ghost use Rattle.live.specs.Ticks.{started, ticked};
ghost use Rattle.replay.specs.Replays.{Replays};

use adoption_theory::{Adoption, Record};
use bench_answer::MOST_ANSWER;
use live::{State, Ticked};
use plan::{Constraint, Plan, Verdict};
use plan_text::Answer;
use proposal_theory::Proposal;
use replay::Replayed;
use simulation::Simulation;
use slack::Slacks;
use timetable::Written;

#[unsafe(no_mangle)]
pub extern "C" fn bench_read(text: &[u8]) -> Answer
    ensures { result ≡ read_text text.now }
{
    plan_text::read(text)
}

#[unsafe(no_mangle)]
pub extern "C" fn bench_check(p: Plan, c: Constraint) -> Verdict
    ensures { result ≡ verdict p c }
{
    plan_check::check(p, c)
}

#[unsafe(no_mangle)]
pub extern "C" fn bench_simulate(p: Plan, c: Constraint, times: &[u32]) -> Simulation
    ensures { result ≡ simulated p c times.now }
{
    simulation::simulate(p, c, times)
}

#[unsafe(no_mangle)]
pub extern "C" fn bench_bound(p: Plan, c: Constraint) -> Simulation
    ensures { (result ≡ worst_case p c) × (result.response ≤ greatest_release p + sum p.tasks (worst p c)) }
{
    simulation::bound(p, c)
}

#[unsafe(no_mangle)]
pub extern "C" fn bench_timetable(
    p: Plan,
    c: Constraint,
    times: &[u32],
    buffer: &mut [u8],
) -> Written
    ensures { (result ≡ timetabled p c times.now (length buffer.old))
        × (buffer.new ≡ buffer_after p c times.now buffer.old) }
{
    timetable::timetable(p, c, times, buffer)
}

#[unsafe(no_mangle)]
pub extern "C" fn bench_worst_timetable(p: Plan, c: Constraint, buffer: &mut [u8]) -> Written
    ensures { (result ≡ worst_timetabled p c (length buffer.old))
        × (buffer.new ≡ worst_buffer_after p c buffer.old) }
{
    timetable::worst_timetable(p, c, buffer)
}

#[unsafe(no_mangle)]
pub extern "C" fn bench_margins(p: Plan, c: Constraint) -> Slacks
    ensures { (result ≡ slacks_of p c) × InRange result.slacks }
{
    slack::slacks_of(p, c)
}

#[unsafe(no_mangle)]
pub extern "C" fn bench_adopt(p: Plan, records: &[Record]) -> Adoption
    ensures value { result ≡ adopted p (listed records.now) }
    ensures passes { result.number ≡ 0 → (verdict p result.constraint).number ≡ 0 }
    ensures in_time { result.number ≡ 0 → bound p result.constraint ≤ greatest_finish (listed records.now) }
{
    adoption::adopt(p, records)
}

#[unsafe(no_mangle)]
pub extern "C" fn bench_propose(p: Plan) -> Proposal
    ensures value { result ≡ proposed p }
    ensures passes { result.number ≡ 0 → (verdict p result.constraint).number ≡ 0 }
    ensures in_time { result.number ≡ 0 → bound p result.constraint ≤ greatest_finish (schedule_by p) }
{
    proposal::propose(p)
}

#[unsafe(no_mangle)]
pub extern "C" fn bench_start(p: Plan, c: Constraint) -> Ticked
    ensures { result ≡ started p c }
{
    live::start(p, c)
}

#[unsafe(no_mangle)]
pub extern "C" fn bench_tick(s: State, report: u64) -> Ticked
    ensures { result ≡ ticked s report }
{
    s.tick(report)
}

#[unsafe(no_mangle)]
pub extern "C" fn bench_replay(
    p: Plan,
    c: Constraint,
    reports: &[u64],
    numbers: &mut [u32],
    places: &mut [usize],
    sets: &mut [u64],
) -> Replayed
    ensures { Replays p c reports.now numbers.old places.old sets.old
        result numbers.new places.new sets.new }
{
    replay::replay(p, c, reports, numbers, places, sets)
}

#[unsafe(no_mangle)]
pub extern "C" fn bench_answer(text: &[u8], out: &mut [u8; MOST_ANSWER]) -> usize
    ensures { (result ≡ length (answer_text text.now))
        × (out.new ≡ at_start (answer_text text.now) out.old) }
{
    bench_answer::answer(text, out)
}
