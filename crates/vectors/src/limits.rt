// Texts that name a limit: in a text t stands for the longest time, l for the latest deadline and r for the latest not-before
// instant, so that what is stored follows from the limits' names.
ghost use Rattle.std.specs.Prelude.{◌≡◌, length};

use crate::ROOM;
use itoa::Buffer;
use plan::{LATEST_DEADLINE, LATEST_RELEASE, LONGEST_TIME};

// Writes the text with the limits' digits in place of their names, as far as there is room, and answers its length.
pub fn with_limits(s: &[u8], text: &mut [u8; ROOM]) -> usize
    ensures { length text.new ≡ length text.old }
{
    let mut digits = Buffer::new();
    let mut n = 0;
    for b in s {
        let bytes = match *b {
            b't' => digits.format(LONGEST_TIME).as_bytes(),
            b'l' => digits.format(LATEST_DEADLINE).as_bytes(),
            b'r' => digits.format(LATEST_RELEASE).as_bytes(),
            _ => std::slice::from_ref(b),
        };
        for &digit in bytes {
            if n < ROOM {
                text[n] = digit;
                n += 1;
            }
        }
    }
    n
}
