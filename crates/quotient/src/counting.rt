// How many states and transitions the new table has; refusal 17.
ghost use Rattle.std.specs.Prelude.{Bool, ◌&&◌, List, ◌≡◌, ◌+◌, ◌-◌, ◌<◌, ◌≤◌, ℕ, leb, length};
ghost use Rattle.automata.specs.Automaton.{Automaton};
ghost use Rattle.automata.specs.OpenStates.{sum_over};
ghost use Rattle.automata.specs.Quotient.{gone_count, new_count};
ghost use Rattle.fields.specs.Fields.{HoldsTransitions};
ghost use Rattle.format.specs.Format.{max_nodes, max_states, max_transitions};
ghost use Rattle.lists.specs.Positions.{up_from};
ghost use Rattle.lists.specs.Tests.{filter};
ghost use Rattle.subtrees.specs.Store.{bottom_up};
ghost use Rattle.trees.specs.Tree.{Tree};
ghost use Rattle.quotient.specs.Candidates.{kept_in};
ghost use Rattle.quotient.specs.Kept.{KeptAbove};
ghost use Rattle.quotient.specs.Named.{ChangedIn, adds, takes_away};
ghost use Rattle.quotient.specs.Setting.{kept_count, kept_lengths};

use crate::kept::is_kept;
use crate::named::{Candidates, NamedSubtrees};
use crate::nodes::{is_gone, is_new};
use format::{BYTE_VALUES, MAX_STATES};
use pairs::sum_fits;

// How many numbers from `start` on and below `end` pass a test.
fn tally<F: Fn(usize) -> bool>(start: usize, end: usize, passes: F) -> usize
    requires start_le_end { start ≤ end }
    requires callable { (x : ℕ) → x < end → F.pre passes x }
    ensures { (p : (ℕ → Bool)) → ((x : ℕ) → x < end → (b : Bool) → F.post passes x b → b ≡ p x) →
        result ≡ length (filter p (up_from start (end - start))) }
{
    let mut sum = 0;
    for x in start..end {
        if passes(x) {
            sum += 1;
        }
    }
    sum
}

// How many names are kept.
fn count_kept(candidates: &Candidates<'_>) -> usize
    ensures { result ≡ length (filter (kept_in candidates.now) (up_from 1 (candidates.now.n + candidates.now.m))) }
{
    tally(
        1,
        candidates.n + candidates.m + 1,
        |x| is_kept(candidates, x),
    )
}

// How many subtrees add a transition.
fn count_new(named: &NamedSubtrees<'_>) -> usize
    ensures { result ≡ length (filter (adds named.now) (up_from 0 named.now.subtrees.now.count)) }
{
    tally(0, named.subtrees.count, |j| is_new(named, j))
}

// How many subtrees take a transition away.
fn count_gone(named: &NamedSubtrees<'_>) -> usize
    ensures { result ≡ length (filter (takes_away named.now) (up_from 0 named.now.subtrees.now.count)) }
{
    tally(0, named.subtrees.count, |j| is_gone(named, j))
}

// Whether a table has room for the kept names, and an array of `limit` entries for the transitions between them.
pub fn table_fits(
    transitions: &[u8],
    count: usize,
    named: &NamedSubtrees<'_>,
    opens: &[u8; BYTE_VALUES],
    sizes: &[u8; BYTE_VALUES],
    limit: usize,
) -> bool
    requires holds_transitions { HoldsTransitions transitions.now count }
    requires max_nodes_le_limit { max_nodes ≤ limit }
    requires limit_le_max_transitions { limit ≤ max_transitions }
    ensures { (A : Automaton) (t : Tree) (ν : (Tree → ℕ)) (firsts nexts : List ℕ) →
        ChangedIn A t ν transitions.now count opens.now named.now →
        KeptAbove named.now.n named.now.subtrees.now.count opens.now named.now.subtrees.now.states
        named.now.names.now 0 firsts nexts sizes.now →
        result ≡ (leb (kept_count A t (bottom_up t) ν) max_states &&
        leb (sum_over (kept_lengths A t ν) A.transitions + new_count A (bottom_up t) ν)
        (limit + gone_count A (bottom_up t) ν)) }
{
    let candidates = Candidates {
        n: named.n,
        m: named.subtrees.count,
        opens,
        states: &named.subtrees.states,
        names: named.names,
    };
    if count_kept(&candidates) > MAX_STATES {
        return false;
    }
    let new = count_new(named);
    let gone = count_gone(named);
    sum_fits(transitions, count, new, limit + gone, sizes)
}
