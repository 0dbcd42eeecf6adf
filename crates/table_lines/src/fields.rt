// Numbers of a line, each with the byte that ends it.
ghost use Rattle.std.specs.Prelude.{◌≡◌, ◌++◌};
ghost use Rattle.plan.specs.Refusals.{entry_at};
ghost use Rattle.table_lines.specs.Texts.{field};
ghost use Rattle.table_lines.specs.Steps.{Put, Room};

use crate::decimal::put_decimal;

// The instant of task t, from the starts or the finishes; 0 past the last task.
pub fn instant_of(instants: &[u32], t: usize) -> usize
    ensures { result ≡ entry_at instants.now t }
{
    instants.get(t).copied().unwrap_or(0) as usize
}

// Writes a number and the byte that ends it.
pub fn put_field(buffer: &mut [u8], at: usize, x: usize, mark: u8) -> usize
    requires { Room buffer.old at (field x mark) }
    ensures { Put buffer.old at (field x mark) buffer.new result }
{
    let end = put_decimal(buffer, at, x);
    buffer[end] = mark;
    end + 1
}

// Writes two numbers, a tab between them and a byte after them.
pub fn put_pair(buffer: &mut [u8], at: usize, x: usize, y: usize, mark: u8) -> usize
    requires { Room buffer.old at (field x 9 ++ field y mark) }
    ensures { Put buffer.old at (field x 9 ++ field y mark) buffer.new result }
{
    let next = put_field(buffer, at, x, b'\t');
    put_field(buffer, next, y, mark)
}
