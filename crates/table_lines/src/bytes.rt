// Bytes as they are, written into a lent buffer.
ghost use Rattle.table_lines.specs.Steps.{Put, Room};

// Writes these bytes from `at` on, and answers the place after them.
pub fn put_bytes(buffer: &mut [u8], at: usize, bytes: &[u8]) -> usize
    requires { Room buffer.old at bytes.now }
    ensures { Put buffer.old at bytes.now buffer.new result }
{
    let end = at + bytes.len();
    buffer[at..end].copy_from_slice(bytes);
    end
}
