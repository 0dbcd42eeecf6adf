// Start, and then a tick for each report of a list: the answers are those of the bench book (document 01, "The bench book").
#![tactic(auto)]

ghost use Rattle.std.specs.Prelude.{◌≡◌, ◌≤◌, length};
ghost use Rattle.replay.specs.Replays.{Replays, refusal, room_in};
ghost use Rattle.replay.specs.Steps.{after_each};

use live::{State, no_state, start};
use plan::{Constraint, Plan};

// What replay answers, as C has it: a refusal's number and place, or 0 and 0; the set of tasks that start started; the state
// after the list.
#[repr(C)]
#[derive(Drop)]
pub struct Replayed {
    pub number: u32,
    pub place: usize,
    pub started: u64,
    pub state: State,
}

// A tick for each report, on the state that the one before gave back; each answer goes to the front of the buffers. They are
// indexed: three zips would be no plainer.
fn tick_each(
    mut state: State,
    reports: &[u64],
    numbers: &mut [u32],
    places: &mut [usize],
    sets: &mut [u64],
) -> State
    requires { length reports.now ≤ room_in numbers.old places.old sets.old }
    ensures { (result, (numbers.new, (places.new, sets.new)))
        ≡ after_each state reports.now numbers.old places.old sets.old }
{
    for (i, &report) in reports.iter().enumerate() {
        let t = state.tick(report);
        numbers[i] = t.number;
        places[i] = t.place;
        sets[i] = t.started;
        state = t.state;
    }
    state
}

// A refused answer: the rest is zeros.
fn refusal(number: u32, place: usize) -> Replayed
    ensures { result ≡ refusal number place }
{
    let state = no_state();
    Replayed {
        number,
        place,
        started: 0,
        state,
    }
}

// Start, then a tick for each report, whatever the answers. Each report needs an entry in each buffer.
pub fn replay(
    p: Plan,
    c: Constraint,
    reports: &[u64],
    numbers: &mut [u32],
    places: &mut [usize],
    sets: &mut [u64],
) -> Replayed
    ensures { Replays p c reports.now numbers.old places.old sets.old
        result numbers.new places.new sets.new }
{
    let t = start(p, c);
    if t.number != 0 {
        return refusal(t.number, t.place);
    }
    let needed = reports.len();
    let room = numbers.len().min(places.len().min(sets.len()));
    let short = room < needed;
    if short {
        return refusal(19, needed);
    }
    let state = tick_each(t.state, reports, numbers, places, sets);
    Replayed {
        number: 0,
        place: 0,
        started: t.started,
        state,
    }
}
