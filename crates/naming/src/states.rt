// States compared with a subtree one by one. A subtree can stand for 0 and for open states only.
ghost use Rattle.std.specs.Prelude.{Bool, IfSome, List, ◌≡◌, ◌+◌, ◌-◌, ◌<◌, ◌≤◌, ℕ, ◌||◌, eqb, get_or};
ghost use Rattle.automata.specs.Automaton.{Automaton};
ghost use Rattle.trees.specs.Tree.{Tree};
ghost use Rattle.format.specs.Format.{byte_values};
ghost use Rattle.marking.specs.Marks.{marked};
ghost use Rattle.naming.specs.Search.{KnownFor, OpenFor, NamesFor, ChosenFor, TriedFor, FoundFor};

use crate::classes::class_in;
use crate::sought::Sought;
use alike::like_state;
use format::BYTE_VALUES;

// Whether q is 0 or marked.
fn is_free(marks: &[u8; BYTE_VALUES], q: usize) -> bool
    requires { q < byte_values }
    ensures { result ≡ (eqb q 0 || marked marks.now q) }
{
    if q == 0 {
        return true;
    }
    marks[q] != 0
}

// Whether q is 0 or open, and the subtree is like it.
pub fn fits_state(sought: &Sought<'_, '_>, q: usize) -> bool
    requires q_le_n { q ≤ sought.now.setting.now.n }
    ensures { (A : Automaton) (t : Tree) (ts : List Tree) (S : Tree → Bool) (N : Tree → ℕ) →
        KnownFor A t ts S sought.now → OpenFor A t sought.now → NamesFor A t ts N sought.now →
        TriedFor A t S ts N sought.now q result }
{
    if !is_free(sought.marks, q) {
        return false;
    }
    let class = class_in(sought.table, q);
    let number = sought.j as u8;
    let state = q as u8;
    like_state(
        sought.setting,
        sought.names,
        number,
        state,
        class,
        sought.from,
        sought.to,
    )
}

// The first of 0 and the open states that the subtree is like.
pub fn first_state(sought: &Sought<'_, '_>) -> Option<usize>
    ensures upper_bound { IfSome result (λ q. q ≤ sought.now.setting.now.n) }
    ensures state_sought { (A : Automaton) (t : Tree) (ts : List Tree) (S : Tree → Bool) (N : Tree → ℕ) →
        KnownFor A t ts S sought.now → OpenFor A t sought.now → NamesFor A t ts N sought.now →
        FoundFor A t S ts N sought.now result }
{
    for q in 0..sought.setting.n + 1 {
        if fits_state(sought, q) {
            return Some(q);
        }
    }
    None
}

// The state that the subtree has, if it is open and the subtree is still like it.
pub fn own_state(sought: &Sought<'_, '_>) -> Option<usize>
    ensures upper_bound { IfSome result (λ q. q ≤ sought.now.setting.now.n) }
    ensures own { IfSome result (λ q. q ≡ get_or sought.now.setting.now.subtrees.now.states (sought.now.j - 1) 0) }
    ensures chosen { (A : Automaton) (t : Tree) (ts : List Tree) (S : Tree → Bool) (N : Tree → ℕ) →
        KnownFor A t ts S sought.now → OpenFor A t sought.now → NamesFor A t ts N sought.now →
        IfSome result (ChosenFor A t S ts N sought.now) }
{
    let q = usize::from(sought.setting.subtrees.states[sought.j - 1]);
    if q > sought.setting.n {
        return None;
    }
    if !fits_state(sought, q) {
        return None;
    }
    Some(q)
}
