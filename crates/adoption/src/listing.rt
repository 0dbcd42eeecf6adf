// A lent list of records, read into columns.
ghost use Rattle.std.specs.Prelude.{◌≡◌};
ghost use Rattle.adoption_theory.specs.Schedules.{column, listed as listed_of, schedule_of};

use adoption_theory::{Record, Schedule};
use plan::MOST_TASKS;
use std::array;

// The columns of 64 records, of a list of so many.
fn columns(len: usize, records: &[Record; MOST_TASKS]) -> Schedule
    ensures { result ≡ schedule_of len (column (λ r. r.task) records.now) (column (λ r. r.unit_type) records.now)
        (column (λ r. r.start) records.now) (column (λ r. r.finish) records.now) }
{
    Schedule {
        len,
        tasks: array::from_fn(|i| records[i].task),
        types: array::from_fn(|i| records[i].unit_type),
        starts: array::from_fn(|i| records[i].start),
        finishes: array::from_fn(|i| records[i].finish),
    }
}

// The one function that looks into the lent records. No more are read than there is room for.
pub fn listed(records: &[Record]) -> Schedule
    ensures { result ≡ listed_of records.now }
{
    let mut out = [Record::default(); MOST_TASKS];
    let n = records.len().min(MOST_TASKS);
    out[..n].copy_from_slice(&records[..n]);
    columns(records.len(), &out)
}
