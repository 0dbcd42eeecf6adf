// Decimal numbers, written into a lent buffer.
ghost use Rattle.std.specs.Prelude.{◌≡◌, ◌≤◌, length};
ghost use Rattle.table_lines.specs.Decimal.{decimal};
ghost use Rattle.table_lines.specs.Steps.{Put, Room};

// How many digits x has: at most 20, so that sums of a few of them fit.
pub fn decimal_length(x: usize) -> usize
    ensures { (result ≡ length (decimal x)) × (result ≤ 20) }
{
    match x.checked_ilog10() {
        Some(power) => power as usize + 1,
        None => 1,
    }
}

// Writes x from `at` on, its last digit first, and answers the place after it.
pub fn put_decimal(buffer: &mut [u8], at: usize, x: usize) -> usize
    requires { Room buffer.old at (decimal x) }
    ensures { Put buffer.old at (decimal x) buffer.new result }
{
    let end = at + decimal_length(x);
    let mut left = x;
    for i in (at..end).rev() {
        buffer[i] = b'0' + (left % 10) as u8;
        left /= 10;
    }
    end
}
