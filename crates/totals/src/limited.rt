// Sums and products up to 2^64: a number of trees is none if it is above 18,446,744,073,709,551,615. Nothing wraps.
ghost use Rattle.std.specs.Prelude.{◌≡◌, ◌*◌, ◌+◌};
ghost use Rattle.totals.specs.Limited.{total_of, worth};

#[tactic(auto, using(crate::proofs::Limits::total_cases))]
pub fn plus(a: Option<u64>, b: Option<u64>) -> Option<u64>
    ensures { result ≡ total_of (worth a + worth b) }
{
    a?.checked_add(b?)
}

// A product with a number that is over is over too, unless the other is 0.
pub fn times(a: Option<u64>, b: Option<u64>) -> Option<u64>
    ensures { result ≡ total_of (worth a * worth b) }
{
    if a == Some(0) || b == Some(0) {
        return Some(0);
    }
    a?.checked_mul(b?)
}
