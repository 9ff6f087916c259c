// Products over the arguments of transitions, and sums of these, from a number for each state. `transitions` has
// transition i at byte 12 i. Every number stops at a cap, so none overflows.
ghost use Rattle.std.specs.Prelude.{true, ◌≡◌, ◌+◌, ◌<◌, ◌≤◌, min, leb, length};
ghost use Rattle.automata.specs.OpenStates.{sum_over};
ghost use Rattle.fields.specs.Fields.{HoldsTransitions, Readable};
ghost use Rattle.format.specs.Format.{byte_values, max_product};
ghost use Rattle.table.specs.Layout.{out_of, transitions_in};
ghost use Rattle.pairs.specs.Counts.{Raised, SumsInto, entry, product_at, product_cap, sum_cap, zeros};

use fields::{arg_of, arity_of, out_of};
use format::{BYTE_VALUES, MAX_PRODUCT, TRANSITION_BYTES};

const SUM_CAP: usize = 255;

// A product, at most one more than condition 16 allows.
fn capped(product: usize) -> usize
    ensures { result ≡ min product_cap product }
{
    product.min(MAX_PRODUCT + 1)
}

// Whether the numbers of all arguments are 1, as they mostly are.
fn all_ones(transitions: &[u8], at: usize, numbers: &[u8; BYTE_VALUES]) -> bool
    requires { Readable transitions.now at }
    ensures { result ≡ true → 1 ≡ min product_cap (product_at numbers.now transitions.now at) }
{
    let arity = arity_of(transitions, at);
    for k in 0..arity {
        let q = arg_of(transitions, at, k);
        if numbers[q] != 1 {
            return false;
        }
    }
    true
}

// The product of the numbers of the arguments, up to the cap.
fn multiplied(transitions: &[u8], at: usize, numbers: &[u8; BYTE_VALUES]) -> usize
    requires { Readable transitions.now at }
    ensures { result ≡ min product_cap (product_at numbers.now transitions.now at) }
{
    let arity = arity_of(transitions, at);
    let mut product = 1;
    for k in 0..arity {
        let q = arg_of(transitions, at, k);
        let number = usize::from(numbers[q]);
        if number == 0 {
            return 0;
        }
        product = capped(product * number);
    }
    product
}

// The same with a test first whether all are 1.
fn product(transitions: &[u8], at: usize, numbers: &[u8; BYTE_VALUES]) -> usize
    requires { Readable transitions.now at }
    ensures { result ≡ min product_cap (product_at numbers.now transitions.now at) }
{
    if all_ones(transitions, at, numbers) {
        return 1;
    }
    multiplied(transitions, at, numbers)
}

// A byte plus a number, at most 255.
fn raised(sum: u8, more: usize) -> u8
    requires { more ≤ product_cap }
    ensures { result ≡ min sum_cap (sum + more) }
{
    (usize::from(sum) + more).min(SUM_CAP) as u8
}

// Adds the product of the transition that starts at a byte to the sum of its output. Outputs whose number is 0 are
// left out, because their sums are not used. Most factors are 0 here, so `multiplied` is faster than `product`.
fn add_product(
    transitions: &[u8],
    at: usize,
    numbers: &[u8; BYTE_VALUES],
    sums: &mut [u8; BYTE_VALUES],
)
    requires readable { Readable transitions.now at }
    requires sums_len { length sums.old ≡ byte_values }
    ensures { Raised (entry numbers.now) (out_of transitions.now at) (product_at numbers.now transitions.now at) sums.old sums.new }
{
    let out = out_of(transitions, at);
    if numbers[out] == 0 {
        return;
    }
    let more = multiplied(transitions, at, numbers);
    sums[out] = raised(sums[out], more);
}

// For each state whose number is not 0, the sum of the products of the transitions into it. `sums` is all 0 before.
pub fn sums_into(
    transitions: &[u8],
    count: usize,
    numbers: &[u8; BYTE_VALUES],
    sums: &mut [u8; BYTE_VALUES],
)
    requires holds_transitions { HoldsTransitions transitions.now count }
    requires sums_value { sums.old ≡ zeros }
    ensures { SumsInto (entry numbers.now) (transitions_in transitions.now count) sums.new }
{
    for i in 0..count {
        add_product(transitions, TRANSITION_BYTES * i, numbers, sums);
    }
}

// Whether the sum of the products of all transitions and `more` is at most `limit`.
pub fn sum_fits(
    transitions: &[u8],
    count: usize,
    more: usize,
    limit: usize,
    numbers: &[u8; BYTE_VALUES],
) -> bool
    requires holds_transitions { HoldsTransitions transitions.now count }
    requires more_le_limit { more ≤ limit }
    requires limit_le_max_product { limit ≤ max_product }
    ensures { result ≡ leb (sum_over (entry numbers.now) (transitions_in transitions.now count)
        + more) limit }
{
    let mut sum = more;
    for i in 0..count {
        sum += product(transitions, TRANSITION_BYTES * i, numbers);
        if sum > limit {
            return false;
        }
    }
    true
}
