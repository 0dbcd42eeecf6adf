// Putting a value into a part of a plan, a constraint or a run state, so that vectors reach what no text says.
use live::State;
use plan::{Constraint, Plan};
use std::slice;

// A part, by its number from 0 on.
#[derive(Clone, Copy)]
enum Part {
    Types,
    Units,
    Tasks,
    Best,
    Worst,
    Predecessors,
    Length,
    EntryTask,
    EntryType,
    Instant,
    Started,
    Finished,
    Starts,
    Finishes,
    Deadlines,
    Releases,
}

// A number that no part has.
#[derive(Drop)]
struct NoPart;

impl TryFrom<u64> for Part {
    type Error = NoPart;

    fn try_from(number: u64) -> Result<Part, NoPart> {
        match number {
            0 => Ok(Part::Types),
            1 => Ok(Part::Units),
            2 => Ok(Part::Tasks),
            3 => Ok(Part::Best),
            4 => Ok(Part::Worst),
            5 => Ok(Part::Predecessors),
            6 => Ok(Part::Length),
            7 => Ok(Part::EntryTask),
            8 => Ok(Part::EntryType),
            9 => Ok(Part::Instant),
            10 => Ok(Part::Started),
            11 => Ok(Part::Finished),
            12 => Ok(Part::Starts),
            13 => Ok(Part::Finishes),
            14 => Ok(Part::Deadlines),
            15 => Ok(Part::Releases),
            _ => Err(NoPart),
        }
    }
}

// Nothing is altered where there is no such place, or where it can't hold the value.
fn set<T: TryFrom<u64> + Drop>(places: &mut [T], i: usize, value: u64) -> Option<()>
where
    T::Error: Drop,
{
    *places.get_mut(i)? = T::try_from(value).ok()?;
    Some(())
}

// A value, and the place of a part that it is for: place 0 where the part is one number.
#[derive(Clone, Copy)]
pub struct Put {
    part: Part,
    index: usize,
    value: u64,
}

impl Put {
    pub fn new(part: u64, index: u64, value: u64) -> Option<Put> {
        Some(Put {
            part: Part::try_from(part).ok()?,
            index: usize::try_from(index).ok()?,
            value,
        })
    }

    // None, and a plan as it was, where the plan has no such part or place, or the place can't hold the value.
    pub fn into_plan(self, p: &mut Plan) -> Option<()> {
        match self.part {
            Part::Types => set(slice::from_mut(&mut p.types), self.index, self.value),
            Part::Units => set(&mut p.units, self.index, self.value),
            Part::Tasks => set(slice::from_mut(&mut p.tasks), self.index, self.value),
            Part::Best => set(&mut p.bcet, self.index, self.value),
            Part::Worst => set(&mut p.wcet, self.index, self.value),
            Part::Predecessors => set(&mut p.predecessors, self.index, self.value),
            Part::Deadlines => set(&mut p.deadlines, self.index, self.value),
            Part::Releases => set(&mut p.releases, self.index, self.value),
            _ => None,
        }
    }

    // The same for a constraint.
    pub fn into_constraint(self, c: &mut Constraint) -> Option<()> {
        match self.part {
            Part::Length => set(slice::from_mut(&mut c.len), self.index, self.value),
            Part::EntryTask => set(&mut c.order, self.index, self.value),
            Part::EntryType => set(&mut c.chosen, self.index, self.value),
            _ => None,
        }
    }

    // The same for a run state's own parts.
    fn into_run(self, s: &mut State) -> Option<()> {
        match self.part {
            Part::Instant => set(slice::from_mut(&mut s.instant), self.index, self.value),
            Part::Started => set(slice::from_mut(&mut s.started), self.index, self.value),
            Part::Finished => set(slice::from_mut(&mut s.finished), self.index, self.value),
            Part::Starts => set(&mut s.starts, self.index, self.value),
            Part::Finishes => set(&mut s.finishes, self.index, self.value),
            _ => None,
        }
    }

    // None, and all as it was, where plan and constraint have no such part or place, or the place can't hold the value.
    pub fn into_planned(self, p: &mut Plan, c: &mut Constraint) -> Option<()> {
        self.into_plan(p).or_else(|| self.into_constraint(c))
    }

    // The same for a run state, and the plan and the constraint in it.
    pub fn into_state(self, s: &mut State) -> Option<()> {
        if self.into_run(s).is_some() {
            return Some(());
        }
        self.into_planned(&mut s.plan, &mut s.constraint)
    }
}
