// How many trees a table accepts (02, order 2). Numbers of states are found by a search without a contract, and an
// exact test shows that they are right. If it fails, they are worked out by depth, as the definition does.
#![tactic(auto)]

mod limited; // sums and products up to 2^64
mod numbers; // a number for each state
mod rounds; // the numbers of all states, from those before
mod search; // numbers that are likely to be right

ghost use Rattle.std.specs.Prelude.{true, List, [], ◌≡◌, ◌<◌, ◌≤◌, ℕ, length};
ghost use Rattle.automata.specs.Acyclic.{acyclic};
ghost use Rattle.automata.specs.Order.{rising};
ghost use Rattle.automata.specs.Totals.{sum_accepting, total};
ghost use Rattle.fields.specs.Fields.{HoldsTransitionsOver};
ghost use Rattle.fields.specs.View.{viewed};
ghost use Rattle.format.specs.Format.{byte_values, max_transitions};
ghost use Rattle.lists.specs.Positions.{up_from};
ghost use Rattle.table.specs.Intake.{table_refusal};
ghost use Rattle.table.specs.Layout.{decode, transitions_in};
ghost use Rattle.totals.specs.Limited.{total_of};
ghost use Rattle.totals.specs.Numbers.{NumbersOf, number_in};

use fields::transition_count;
use format::{BYTE_VALUES, HEAD_BYTES};
pub use limited::{plus, times};
pub use numbers::Numbers;
use numbers::same;
pub use rounds::product;
use rounds::{round, rounds};
use search::{LINKS, link, settle_all};

// The numbers of the trees of the states 1 to n, if no state comes back to itself.
fn numbers_of(transitions: &[u8], count: usize, n: usize) -> Numbers
    requires holds_transitions_over { HoldsTransitionsOver transitions.now count n }
    requires count_value { rising (transitions_in transitions.now count) ≡ true }
    requires count_le_max_transitions { count ≤ max_transitions }
    requires n_lt_byte_values { n < byte_values }
    ensures { (cl : List ℕ) → acyclic (viewed cl transitions.now n count) ≡ true →
        NumbersOf (viewed cl transitions.now n count) result }
{
    let mut numbers = [None; BYTE_VALUES];
    if n == 0 {
        return numbers;
    }
    let mut links = [0u16; LINKS];
    link(transitions, count, &mut links);
    let mut next = [None; BYTE_VALUES];
    for _ in 0..n {
        settle_all(transitions, count, n, &links, &mut numbers);
        round(transitions, count, &numbers, &mut next);
        if same(&numbers, &next, n) {
            return numbers;
        }
    }
    rounds(transitions, count, n, &mut numbers, &mut next);
    numbers
}

// The sum of the numbers of those of the states 1 to n that are accepting. `classes` has the class of state q at
// byte q.
pub fn sum_accepting(classes: &[u8], n: usize, numbers: &Numbers) -> Option<u64>
    requires n_in_bounds { n < length classes.now }
    requires n_lt_byte_values { n < byte_values }
    ensures { result ≡ total_of (sum_accepting (viewed classes.now [] n 0) (number_in numbers.now) (up_from 1 n)) }
{
    let mut sum = Some(0);
    for q in 1..n + 1 {
        let accepting = classes[q] == 1;
        if accepting {
            sum = plus(sum, numbers[q]);
        }
    }
    sum
}

// The numbers of the trees of a table's states.
pub fn state_numbers(table: &[u8]) -> Numbers
    requires { table_refusal table.now ≡ 0 }
    ensures { NumbersOf (decode table.now) result }
{
    let count = transition_count(table);
    let n = usize::from(table[0]);
    numbers_of(&table[HEAD_BYTES..], count, n)
}

// The number of trees that a table accepts, from those of its states.
pub fn total_of(table: &[u8], numbers: &Numbers) -> Option<u64>
    requires table_value { table_refusal table.now ≡ 0 }
    requires numbers_of { NumbersOf (decode table.now) numbers.now }
    ensures { result ≡ total_of (total (decode table.now)) }
{
    let n = usize::from(table[0]);
    sum_accepting(table, n, numbers)
}

// The number of trees that a table accepts.
pub fn total(table: &[u8]) -> Option<u64>
    requires { table_refusal table.now ≡ 0 }
    ensures { result ≡ total_of (total (decode table.now)) }
{
    let numbers = state_numbers(table);
    total_of(table, &numbers)
}
