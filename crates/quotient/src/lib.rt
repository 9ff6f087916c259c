// The transitions of the new automaton, between names. They come from the transitions of the table, for all choices
// of kept names for the arguments, and from subtrees that run to no state. Refusal 17 is known by counting before any
// is made. With n states and m subtrees, a name x up to n is a state, and n + j is the own name of subtree j.
#![tactic(auto)]

mod choosing; // all choices of names for the arguments of a transition
mod counting; // how many states and transitions the new table has
mod entries; // transitions put into two arrays
mod finishing; // the entry of one choice
mod kept; // the names that are kept, by state
mod plain; // transitions over states that keep their names
mod making; // all transitions
mod named; // the subtrees with their names, and the names that are kept
mod nodes; // subtrees as nodes over own names

pub use counting::table_fits;
pub use kept::keep;
pub use making::make;
pub use named::{Candidates, KeptNames, NamedSubtrees};
