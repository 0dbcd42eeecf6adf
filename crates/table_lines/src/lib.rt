// Numbers and lines, written into a lent buffer: what the timetable, the margins and the proposed order are made of, and the line of a
// refusal (document 01, "Timetable and program").
#![tactic(auto)]

ghost use Rattle.std.specs.Prelude.{◌≡◌};
ghost use Rattle.plan.specs.Refusals.{as_result, refused};
ghost use Rattle.table_lines.specs.Steps.{lacking, written_of};

mod bytes;
mod decimal;
mod fields;
mod refusal;
mod texts;

pub use bytes::put_bytes;
pub use decimal::decimal_length;
pub use fields::{instant_of, put_field, put_pair};
use plan::Verdict;
pub use refusal::put_refusal;
pub use texts::{put_each, total_length};

// What C is handed: the bytes written, with number and place 0; or a refusal's number and place.
#[repr(C)]
#[derive(Clone, Copy, PartialEq, Eq)]
pub struct Written {
    pub number: u32,
    pub place: usize,
    pub written: usize,
}

impl From<Result<usize, Verdict>> for Written {
    ghost from_gives = { λ r w. w ≡ written_of r };

    fn from(r: Result<usize, Verdict>) -> Written {
        match r {
            Ok(written) => Written {
                number: 0,
                place: 0,
                written,
            },
            Err(v) => Written {
                number: v.number,
                place: v.place,
                written: 0,
            },
        }
    }
}

// The refusal with this number and place; none where the number is 0.
pub fn accepted(number: u32, place: usize) -> Result<(), Verdict>
    ensures { result ≡ as_result (refused number place) }
{
    if number != 0 {
        return Err(Verdict::refused(number, place));
    }
    Ok(())
}

// 19 where a buffer has less room than needed.
pub fn fits(needed: usize, room: usize) -> Result<(), Verdict>
    ensures { result ≡ as_result (lacking needed room) }
{
    if room < needed {
        return Err(Verdict::refused(19, needed));
    }
    Ok(())
}
