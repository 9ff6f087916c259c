// Binary search by a test.
ghost use Rattle.std.specs.Prelude.{false, true, ◌-◌, ◌<◌, ◌≤◌, ℕ};

// The first number below `count` that fails a test, if those that pass come before those that fail; `count` if all
// pass. In any case the number before the result passes and the result fails, where they are below `count`.
pub fn partition_point<F: Fn(usize) -> bool>(count: usize, passes: F) -> usize
    requires { (i : ℕ) → i < count → F.pre passes i }
    ensures upper_bound { result ≤ count }
    ensures before { 0 < result → F.post passes (result - 1) true }
    ensures here { result < count → F.post passes result false }
{
    let mut low = 0;
    let mut high = count;
    while low < high {
        let middle = low + (high - low) / 2;
        if passes(middle) {
            low = middle + 1;
        } else {
            high = middle;
        }
    }
    low
}
