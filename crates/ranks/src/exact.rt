// Numbers of 64 bits beside numbers of trees, which may be over: every number of 64 bits is below one that is over.
ghost use Rattle.std.specs.Prelude.{◌≡◌, ◌%◌, ◌/◌, ◌≤◌};
ghost use Rattle.totals.specs.Limited.{worth};

// How often a number goes into another, and what is left.
pub fn divided(k: u64, by: Option<u64>) -> (u64, u64)
    requires { 1 ≤ worth by }
    ensures quotient { result.0 ≡ k / worth by }
    ensures rest { result.1 ≡ k % worth by }
{
    match by {
        Some(x) => (k / x, k % x),
        None => (0, k),
    }
}
