// The place that a number falls in. Places take numbers in their order, each as many as it has trees.
ghost use Rattle.std.specs.Prelude.{[], ◌<◌, length};
ghost use Rattle.automata.specs.Totals.{sum_accepting, sum_into};
ghost use Rattle.fields.specs.Fields.{HoldsTransitions};
ghost use Rattle.fields.specs.View.{viewed};
ghost use Rattle.format.specs.Format.{byte_values};
ghost use Rattle.lists.specs.Positions.{up_from};
ghost use Rattle.table.specs.Layout.{transitions_in};
ghost use Rattle.totals.specs.Numbers.{number_in};
ghost use Rattle.ranks.specs.Steps.{StateChosen, TransitionChosen};

use crate::weights::trees_into;
use format::TRANSITION_BYTES;
use totals::Numbers;

// A place, and the number that is left within it.
#[derive(Drop)]
pub struct Choice {
    pub place: usize,
    pub left: u64,
}

// The accepting state, of 1 to n, that has the tree of a number. `classes` has the class of state q at byte q.
pub fn choose_state(classes: &[u8], n: usize, number: u64, numbers: &Numbers) -> Choice
    requires n_in_bounds { n < length classes.now }
    requires n_lt_byte_values { n < byte_values }
    requires number_bound { number < sum_accepting (viewed classes.now [] n 0) (number_in numbers.now) (up_from 1 n) }
    ensures { StateChosen (viewed classes.now [] n 0) (number_in numbers.now) n number
        result }
{
    let mut left = number;
    for q in 1..n + 1 {
        let accepting = classes[q] == 1;
        if accepting {
            match numbers[q] {
                Some(here) if here <= left => left -= here,
                _ => return Choice { place: q, left },
            }
        }
    }
    unreachable!()
}

// The transition into state q that has the state's tree of a number.
pub fn choose_transition(
    transitions: &[u8],
    count: usize,
    q: usize,
    number: u64,
    numbers: &Numbers,
) -> Choice
    requires holds_transitions { HoldsTransitions transitions.now count }
    requires number_bound { number < sum_into (number_in numbers.now) q (transitions_in transitions.now count) }
    ensures { TransitionChosen (number_in numbers.now) transitions.now count q number result }
{
    let mut left = number;
    for i in 0..count {
        match trees_into(transitions, TRANSITION_BYTES * i, q, numbers) {
            Some(here) if here <= left => left -= here,
            _ => return Choice { place: i, left },
        }
    }
    unreachable!()
}
