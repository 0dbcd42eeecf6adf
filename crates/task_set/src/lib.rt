// Sets of task numbers 0 to 63, as the bits of a word: bit t for task t.
// Every function takes every number: one of 64 or more is in no set.
#![tactic(auto)]

ghost use Rattle.std.specs.Prelude.{◌≡◌};
ghost use Rattle.task_set.specs.Sets.{below, has, insert, intersect, lowest, remove, size, subset, without};

// How many numbers can be members.
pub const WIDTH: usize = 64;

pub fn contains(s: u64, t: usize) -> bool
    ensures { result ≡ has s t }
{
    if WIDTH <= t {
        return false;
    }
    (s >> t) & 1 == 1
}

pub fn inserted(s: u64, t: usize) -> u64
    ensures { result ≡ insert s t }
{
    if WIDTH <= t {
        return s;
    }
    s | (1u64 << t)
}

pub fn removed(s: u64, t: usize) -> u64
    ensures { result ≡ remove s t }
{
    if WIDTH <= t {
        return s;
    }
    s ^ (s & (1u64 << t))
}

// The members of s but the lowest.
pub fn without_lowest(s: u64) -> u64
    ensures { result ≡ remove s (lowest s) }
{
    if s == 0 {
        return 0;
    }
    s & (s - 1)
}

// The members of a that are not members of b.
pub fn difference(a: u64, b: u64) -> u64
    ensures { result ≡ without a b }
{
    a ^ (a & b)
}

// The members of s below n.
pub fn members_below(s: u64, n: usize) -> u64
    ensures { result ≡ below s n }
{
    if WIDTH <= n {
        return s;
    }
    s & ((1u64 << n) - 1)
}

pub fn is_subset(a: u64, b: u64) -> bool
    ensures { result ≡ subset a b }
{
    a & b == a
}

// Whether a and b have a member in common.
pub fn intersects(a: u64, b: u64) -> bool
    ensures { result ≡ intersect a b }
{
    a & b != 0
}

// The lowest member, and 64 for the empty set.
pub fn lowest_member(s: u64) -> u32
    ensures { result ≡ lowest s }
{
    u64::trailing_zeros(s)
}

// How many members s has.
pub fn member_count(s: u64) -> u32
    ensures { result ≡ size s }
{
    u64::count_ones(s)
}
