// The state that a subtree can stand for. If every candidate must fit one slot, only the slot's arguments are tried.
ghost use Rattle.std.specs.Prelude.{Bool, IfSome, List, ◌≡◌, ◌≤◌, ℕ};
ghost use Rattle.automata.specs.Automaton.{Automaton};
ghost use Rattle.trees.specs.Tree.{Tree};
ghost use Rattle.naming.specs.Search.{KnownFor, OpenFor, NamesFor, FoundFor};

use crate::parents::raised;
use crate::slots::{slot_of, state_in_slot};
use crate::sought::Sought;
use crate::states::{first_state, fits_state, own_state};

// A state, or 0, that the subtree is like. If every candidate must fit one slot, only the slot's arguments are tried.
fn other_state(sought: &Sought<'_, '_>) -> Option<usize>
    ensures upper_bound { IfSome result (λ q. q ≤ sought.now.setting.now.n) }
    ensures state_sought { (A : Automaton) (t : Tree) (ts : List Tree) (S : Tree → Bool) (N : Tree → ℕ) →
        KnownFor A t ts S sought.now → OpenFor A t sought.now → NamesFor A t ts N sought.now →
        FoundFor A t S ts N sought.now result }
{
    match slot_of(sought) {
        Some(z) => state_in_slot(sought, z),
        None => first_state(sought),
    }
}

// A state, or 0, that the subtree is like. There is none if the name of some parent is a subtree's own name. The
// subtree's own state is tried first and then 0, because most subtrees keep their state or occur in no tree any more.
pub fn find_state(sought: &Sought<'_, '_>) -> Option<usize>
    ensures upper_bound { IfSome result (λ q. q ≤ sought.now.setting.now.n) }
    ensures state_sought { (A : Automaton) (t : Tree) (ts : List Tree) (S : Tree → Bool) (N : Tree → ℕ) →
        KnownFor A t ts S sought.now → OpenFor A t sought.now → NamesFor A t ts N sought.now →
        FoundFor A t S ts N sought.now result }
{
    if raised(sought) {
        return None;
    }
    if let Some(q) = own_state(sought) {
        return Some(q);
    }
    if fits_state(sought, 0) {
        return Some(0);
    }
    other_state(sought)
}
