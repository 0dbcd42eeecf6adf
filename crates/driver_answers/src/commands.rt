// The commands, each with its answer, and what is kept between them.
use crate::output::Answer;
use crate::schedules;
use adoption_theory::Schedule;
use driver_input::fields;
use driver_input::put::Put;
use live::State;
use plan::{Constraint, MOST_TASKS, Plan};
use timetable::Written;

const MOST_WRITTEN: usize = 2000;

// Of a list in one line.
const MOST_REPORTS: usize = 79;

#[derive(Clone, Copy)]
pub struct Kept {
    plan: Plan,
    constraint: Constraint,
    state: State,
    schedule: Schedule,
}

pub fn bad(out: &mut Answer) {
    out.text_line(b"bad");
}

// The start and the finish of each task.
pub fn put_times(out: &mut Answer, starts: &[u32; MOST_TASKS], finishes: &[u32; MOST_TASKS]) {
    for (&start, &finish) in starts.iter().zip(finishes) {
        out.number(start);
        out.number(finish);
    }
}

// The answer to a timetable in a buffer of a length that a line gives, filled with # before.
fn timetable<F: FnOnce(&mut [u8]) -> Written>(out: &mut Answer, length: u64, write: F) -> Option<()>
    requires { F.IsAlwaysCallable write }
{
    let mut room = [b'#'; MOST_WRITTEN];
    let buffer = room.get_mut(..usize::try_from(length).ok()?)?;
    let w = write(buffer);
    out.valued_line(b"timetable", w.number, w.place, w.written);
    out.text_line(buffer);
    Some(())
}

impl Kept {
    pub fn nothing() -> Kept {
        Kept {
            plan: plan::no_plan(),
            constraint: plan::no_constraint(),
            state: live::no_state(),
            schedule: schedules::none(),
        }
    }

    // A refused text comes with a plan and a constraint of zeros.
    pub fn text(&mut self, out: &mut Answer, s: &[u8]) {
        let a = plan_text::read(s);
        out.verdict(b"read", a.number, a.place);
        out.end_line();
        self.plan = a.plan;
        self.constraint = a.constraint;
    }

    // A line: a letter, and fields of which each letter has its count.
    pub fn line(&mut self, out: &mut Answer, line: &[u8]) {
        if self.command(out, line).is_none() {
            bad(out);
        }
    }

    // None, and all as it was, where the line is no command.
    fn command(&mut self, out: &mut Answer, line: &[u8]) -> Option<()> {
        let (&letter, rest) = line.split_first()?;
        let fields = fields::after_tabs(rest)?;
        match (letter, fields.as_slice()) {
            (b'M', times) => self.simulate(out, times),
            (b'Y', [length, times @ ..]) => self.timetable(out, *length, times),
            (b'Z', reports) => self.replay(out, reports),
            (_, []) => self.bare(out, letter),
            (b'T', [report]) => self.tick(out, *report),
            (b'W', [length]) => self.worst_timetable(out, *length),
            (b'P', [part, index, value]) => self.put(out, Put::new(*part, *index, *value)?),
            (b'R', [part, index, value]) => self.put_state(out, Put::new(*part, *index, *value)?),
            (b'E', [task, unit_type, start, finish]) => {
                self.put_record(out, [*task, *unit_type, *start, *finish])
            }
            _ => None,
        }
    }

    // The commands without fields.
    fn bare(&mut self, out: &mut Answer, letter: u8) -> Option<()> {
        match letter {
            b'K' => self.check(out),
            b'B' => self.bound(out),
            b'D' => self.margins(out),
            b'S' => self.start(out),
            b'Q' => self.show_state(out),
            b'L' => self.adopt(out),
            b'H' => self.propose(out),
            _ => return None,
        }
        Some(())
    }

    fn check(&self, out: &mut Answer) {
        let v = plan_check::check(self.plan, self.constraint);
        out.verdict(b"check", v.number, v.place);
        out.end_line();
    }

    fn bound(&self, out: &mut Answer) {
        let s = simulation::bound(self.plan, self.constraint);
        out.valued_line(b"bound", s.number, s.place, s.response);
    }

    fn margins(&self, out: &mut Answer) {
        let r = slack::slacks_of(self.plan, self.constraint);
        out.verdict(b"margins", r.number, r.place);
        out.number(u8::from(r.any));
        out.number(r.least);
        out.number(r.task);
        for &x in &r.slacks {
            out.number(x);
        }
        out.end_line();
    }

    fn simulate(&self, out: &mut Answer, values: &[u64]) -> Option<()> {
        let mut times = [0; fields::MOST];
        let times = fields::narrowed(values, &mut times)?;
        let s = simulation::simulate(self.plan, self.constraint, times);
        out.verdict(b"simulate", s.number, s.place);
        out.number(s.response);
        put_times(out, &s.starts, &s.finishes);
        out.end_line();
        Some(())
    }

    fn start(&mut self, out: &mut Answer) {
        let t = live::start(self.plan, self.constraint);
        out.valued_line(b"start", t.number, t.place, t.started);
        self.state = t.state;
    }

    fn tick(&mut self, out: &mut Answer, report: u64) -> Option<()> {
        let t = self.state.tick(report);
        out.valued_line(b"tick", t.number, t.place, t.started);
        self.state = t.state;
        Some(())
    }

    fn show_state(&self, out: &mut Answer) {
        let s = &self.state;
        out.text(b"state");
        out.number(s.instant);
        out.number(s.started);
        out.number(s.finished);
        put_times(out, &s.starts, &s.finishes);
        out.end_line();
    }

    fn worst_timetable(&self, out: &mut Answer, length: u64) -> Option<()> {
        timetable(out, length, |buffer| {
            timetable::worst_timetable(self.plan, self.constraint, buffer)
        })
    }

    fn timetable(&self, out: &mut Answer, length: u64, values: &[u64]) -> Option<()> {
        let mut times = [0; fields::MOST];
        let times = fields::narrowed(values, &mut times)?;
        timetable(out, length, |buffer| {
            timetable::timetable(self.plan, self.constraint, times, buffer)
        })
    }

    // The ticks of a list follow the start, if it is accepted.
    fn replay(&self, out: &mut Answer, reports: &[u64]) -> Option<()> {
        let count = reports.len();
        if MOST_REPORTS < count {
            return None;
        }
        let mut numbers = [0; MOST_REPORTS];
        let mut places = [0; MOST_REPORTS];
        let mut sets = [0; MOST_REPORTS];
        let r = replay::replay(
            self.plan,
            self.constraint,
            reports,
            &mut numbers[..count],
            &mut places[..count],
            &mut sets[..count],
        );
        out.verdict(b"replay", r.number, r.place);
        out.number(r.started);
        if r.number == 0 {
            let ticks = numbers.iter().zip(&places).zip(&sets);
            for ((&number, &place), &set) in ticks.take(count) {
                out.refusal(number, place);
                out.number(set);
            }
        }
        out.end_line();
        Some(())
    }

    fn put(&mut self, out: &mut Answer, put: Put) -> Option<()> {
        put.into_planned(&mut self.plan, &mut self.constraint)?;
        out.text_line(b"put");
        Some(())
    }

    fn put_state(&mut self, out: &mut Answer, put: Put) -> Option<()> {
        put.into_state(&mut self.state)?;
        out.text_line(b"put");
        Some(())
    }

    fn put_record(&mut self, out: &mut Answer, record: [u64; 4]) -> Option<()> {
        schedules::put(&mut self.schedule, record)?;
        out.text_line(b"put");
        Some(())
    }

    // The list is empty again. The constraint of an accepted one is kept.
    fn adopt(&mut self, out: &mut Answer) {
        let a = adoption::adopt_schedule(self.plan, self.schedule);
        schedules::order_line(out, b"adopt", a.number, a.place, &a.constraint);
        self.schedule = schedules::none();
        if a.number == 0 {
            self.constraint = a.constraint;
        }
    }

    // The constraint of an accepted plan is kept.
    fn propose(&mut self, out: &mut Answer) {
        let a = proposal::propose(self.plan);
        schedules::order_line(out, b"propose", a.number, a.place, &a.constraint);
        if a.number == 0 {
            self.constraint = a.constraint;
        }
    }
}
