// Many texts, one after the other: how many bytes they have, and how they are written into a lent buffer.
ghost use Rattle.std.specs.Prelude.{◌≡◌, ◌≤◌, ◌<◌, ◌*◌, List, length, ℕ};
ghost use Rattle.std.specs.Borrow.{MutBor};
ghost use Rattle.plan.specs.Rules.{most_tasks};
ghost use Rattle.table_lines.specs.Texts.{joined};
ghost use Rattle.table_lines.specs.Steps.{Put, Room, Writes};

// The sum of the lengths of the first n texts, at most 64 of at most 85 bytes each.
pub fn total_length<F: Fn(usize) -> usize>(n: usize, length_of: F) -> usize
    requires few { n ≤ most_tasks }
    requires callable { (i : ℕ) → i < n → F.pre length_of i }
    requires short { (i k : ℕ) → i < n → F.post length_of i k → k ≤ 85 }
    ensures bound { result ≤ n * 85 }
    ensures total { (text : ℕ → List ℕ) → ((i k : ℕ) → i < n → F.post length_of i k → k ≡ length (text i))
        → result ≡ length (joined text n) }
{
    let mut sum = 0;
    for i in 0..n {
        sum += length_of(i);
    }
    sum
}

// Writes n texts from the start of the buffer on, and answers their length: `put` writes one of them, from a place on, and answers the
// place after it.
pub fn put_each<F: Fn(&mut [u8], usize, usize) -> usize>(
    buffer: &mut [u8],
    n: usize,
    put: F,
) -> usize
    requires { (text : ℕ → List ℕ) × Room buffer.old 0 (joined text n)
        × ((b : MutBor (List ℕ)) (at i : ℕ) → i < n → Room b.now at (text i) → F.pre put b at i) × Writes text n (F.post put) }
    ensures { (text : ℕ → List ℕ) → Writes text n (F.post put) → Put buffer.old 0 (joined text n) buffer.new result }
{
    let mut at = 0;
    for i in 0..n {
        at = put(buffer, at, i);
    }
    at
}
