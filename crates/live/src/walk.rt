// The walk of an instant, from a run state to the next.
ghost use Rattle.std.specs.Prelude.{◌≡◌, Ok};
ghost use Rattle.live.specs.Steps.{Walkable, answered, walked_on};

use crate::State;
use live_walk::{Walked, walk};
use plan::MOST_TYPES;

// The state walks its instant, with its running tasks and each type's users: the tasks that the walk started.
pub fn walk_on(s: &mut State, users: &[u64; MOST_TYPES], running: u64) -> u64
    requires { Walkable s.old users.now running }
    ensures { answered (Ok result) s.new ≡ walked_on s.old }
{
    let starts = s.starts;
    let begin = Walked {
        begun: s.started,
        running,
        starts,
    };
    let w = walk(&s.plan, &s.constraint, users, s.instant, s.finished, begin);
    let after = w.starts;
    s.started = w.begun;
    s.starts = after;
    task_set::difference(w.running, running)
}
