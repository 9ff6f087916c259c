// How many trees stand at a transition, and how many rows of trees over some states.
ghost use Rattle.std.specs.Prelude.{cond, map, ◌≡◌, ◌-◌, ◌<◌, ◌≤◌, ℕ, eqb};
ghost use Rattle.automata.specs.Totals.{product_over};
ghost use Rattle.fields.specs.Fields.{Readable};
ghost use Rattle.format.specs.Format.{byte_values};
ghost use Rattle.lists.specs.Positions.{up_from};
ghost use Rattle.table.specs.Layout.{out_of, transition_at};
ghost use Rattle.totals.specs.Limited.{total_of};
ghost use Rattle.totals.specs.Numbers.{number_in};

use fields::out_of;
use totals::{Numbers, product, times};

// The number of trees at the transition that starts at a byte, if it leads to state q; else none.
pub fn trees_into(transitions: &[u8], at: usize, q: usize, numbers: &Numbers) -> Option<u64>
    requires { Readable transitions.now at }
    ensures { result ≡ total_of (cond (eqb (out_of transitions.now at) q)
        (product_over (number_in numbers.now) (transition_at transitions.now at).args) 0) }
{
    if out_of(transitions, at) != q {
        return Some(0);
    }
    product(transitions, at, numbers)
}

// The number of rows of trees over the states that a closure gives for the numbers from one up to, not including,
// another.
pub fn product_of<F: Fn(usize) -> usize>(
    from: usize,
    end: usize,
    numbers: &Numbers,
    state: F,
) -> Option<u64>
    requires from_le_end { from ≤ end }
    requires callable { (k : ℕ) → k < end → F.pre state k }
    requires upper_bound { (k : ℕ) → k < end → (q : ℕ) → F.post state k q → q < byte_values }
    ensures { (f : (ℕ → ℕ)) → ((k : ℕ) → k < end → (q : ℕ) → F.post state k q → q ≡ f k) →
        result ≡ total_of (product_over (number_in numbers.now) (map f (up_from from (end - from)))) }
{
    let mut number = Some(1);
    for k in (from..end).rev() {
        number = times(numbers[state(k)], number);
    }
    number
}
