// The line of a refusal, written into a lent buffer (document 01, "Timetable and program").
ghost use Rattle.std.specs.Prelude.{◌≡◌, length};
ghost use Rattle.table_lines.specs.Refusal.{line_after, line_written, refusal_line};

use crate::bytes::put_bytes;
use crate::decimal::decimal_length;
use crate::fields::put_pair;

// Writes the line of a refusal and answers its length; 0, and no byte is changed, where the buffer is shorter than the line.
pub fn put_refusal(number: u32, place: usize, buffer: &mut [u8]) -> usize
    ensures { (result ≡ line_written (length buffer.old) (refusal_line number place))
        × (buffer.new ≡ line_after buffer.old (refusal_line number place)) }
{
    let n = number as usize;
    let needed = decimal_length(n) + decimal_length(place) + 10;
    if buffer.len() < needed {
        return 0;
    }
    let numbered = put_bytes(buffer, 0, b"refused\t");
    put_pair(buffer, numbered, n, place, b'\n')
}
