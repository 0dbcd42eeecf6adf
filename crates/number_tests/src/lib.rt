// A test of each number below a bound, which the caller lends. Each function promises its definition of task_set, for any test that
// says what a predicate says; the caller proves that the test can be called there.
#![tactic(auto)]

ghost use Rattle.std.specs.Prelude.{◌≡◌, ◌<◌, ℕ, Bool};
ghost use Rattle.task_set.specs.Bounded.{all};
ghost use Rattle.task_set.specs.Sets.{set_of};

use task_set::inserted;

// The set of the numbers below n that pass a test: of those that can be members.
pub fn set_of<F: Fn(usize) -> bool>(n: usize, test: F) -> u64
    requires { (t : ℕ) → t < n → F.pre test t }
    ensures { (p : ℕ → Bool) → ((t : ℕ) (b : Bool) → t < n → F.post test t b → b ≡ p t) → result ≡ set_of n p }
{
    let mut s = 0;
    for t in 0..n {
        if test(t) {
            s = inserted(s, t);
        }
    }
    s
}

// Whether each number below n passes a test. Each is tried, so that nothing hangs on how far the one before came.
pub fn all_below<F: Fn(usize) -> bool>(n: usize, test: F) -> bool
    requires { (t : ℕ) → t < n → F.pre test t }
    ensures { (p : ℕ → Bool) → ((t : ℕ) (b : Bool) → t < n → F.post test t b → b ≡ p t) → result ≡ all n p }
{
    let mut ok = true;
    for i in 0..n {
        ok = ok & test(i);
    }
    ok
}
