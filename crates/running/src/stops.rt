// Where a tree that runs to no state stops (02, order 1), from the state of each of its nodes.
ghost use Rattle.std.specs.Prelude.{◌≡◌, ◌*◌, ◌≤◌, length};
ghost use Rattle.automata.specs.Automaton.{Automaton, run};
ghost use Rattle.automata.specs.Stops.{stop_place};
ghost use Rattle.format.specs.Format.{max_arity, max_nodes};
ghost use Rattle.trees.specs.Listing.{listing_refusal, read_tree};
ghost use Rattle.running.specs.Running.{HoldsStates};
ghost use Rattle.running.specs.Stopping.{walked};

use format::MAX_NODES;
use listing::children_at;

// The last node without a state that was met, and how many trees are still to come below it.
#[derive(Drop)]
struct Below {
    stop: usize,
    left: usize,
}

// The next node, with this state and so many children. If it has no state, only what is below it is still to come.
fn walked(stop: usize, left: usize, node: usize, state: u8, children: usize) -> Below
    requires le_left { 1 ≤ left }
    requires left_bound { left ≤ max_arity * max_nodes }
    requires children_le_max_arity { children ≤ max_arity }
    ensures { result ≡ walked stop left node state children }
{
    if state == 0 {
        return Below {
            stop: node,
            left: children,
        };
    }
    Below {
        stop: stop,
        left: left - 1 + children,
    }
}

// The place at which a tree that runs to no state stops, counted in nodes of its listing from 1. The states are those
// of its nodes.
pub fn stop_place(tree: &[u8], states: &[u8; MAX_NODES]) -> u8
    requires tree_value { listing_refusal tree.now ≡ 0 }
    requires states_len { length states.now ≡ max_nodes }
    ensures { (A : Automaton) → HoldsStates A (read_tree tree.now) states.now →
        run A (read_tree tree.now) ≡ 0 → result ≡ stop_place A (read_tree tree.now) }
{
    let mut stop = 0;
    let mut left = usize::from(children_at(tree, 0));
    let mut i = 1;
    while left > 0 {
        let below = walked(stop, left, i, states[i], usize::from(children_at(tree, i)));
        stop = below.stop;
        left = below.left;
        i += 1;
    }
    (stop + 1) as u8
}
