// The check of a table, whole: refusals 5 and 7 to 13, the first that 01's order names. Every call makes it.
#![tactic(auto)]

ghost use Rattle.std.specs.Prelude.{true, List, [], ◌≡◌, ℕ, ◌≤◌, length};
ghost use Rattle.automata.specs.Accessible.{all_accessible};
ghost use Rattle.automata.specs.Acyclic.{acyclic};
ghost use Rattle.automata.specs.Numbered.{numbered};
ghost use Rattle.automata.specs.Order.{rising};
ghost use Rattle.fields.specs.Fields.{HoldsTransitionsOver};
ghost use Rattle.fields.specs.View.{Viewed, viewed};
ghost use Rattle.format.specs.Format.{table_bytes};
ghost use Rattle.format.specs.Refusals.{broken};
ghost use Rattle.lists.specs.Conditions.{first_broken};
ghost use Rattle.packed.specs.Packed.{HoldsPadded};
ghost use Rattle.table.specs.Intake.{automaton_conditions, content_conditions, table_refusal};
ghost use Rattle.table.specs.Layout.{transitions_in};
ghost use Rattle.validity.specs.Ranks.{climbing};

use fields::transition_count;
use fingerprints::settled;
use format::{HEAD_BYTES, Refusal, TABLE_BYTES};
use packed::{layout_fits, rises};
use partition::all_apart;
use validity::{acyclic, all_accessible, all_coaccessible, ranks_show, ruled};

// Condition 9. If the states are numbered by the rule it holds, and no search is needed.
fn reached(transitions: &[u8], count: usize, n: usize, in_order: bool) -> bool
    requires holds_transitions_over { HoldsTransitionsOver transitions.now count n }
    requires n_bound { n ≤ 255 }
    requires in_order_value { in_order ≡ numbered (viewed [] transitions.now n count) }
    ensures { (cl : List ℕ) → result ≡ all_accessible (viewed cl transitions.now n count) }
{
    if in_order {
        return true;
    }
    all_accessible(transitions, count, n)
}

// Whether there is seen to be no loop: every output is above its arguments, or ranks show it. If not, nothing is shown.
fn loopless(transitions: &[u8], count: usize, n: usize, above: bool) -> bool
    requires holds_transitions_over { HoldsTransitionsOver transitions.now count n }
    requires n_bound { n ≤ 255 }
    requires count_value { above ≡ true → climbing (transitions_in transitions.now count) ≡ true }
    ensures { result ≡ true → (cl : List ℕ) → acyclic (viewed cl transitions.now n count) ≡ true }
{
    if above {
        return true;
    }
    ranks_show(transitions, count, n)
}

// Conditions 9 to 13 of an automaton whose fields are in range and whose transitions rise, each by a search of its
// own.
fn check_by_search(
    classes: &[u8],
    transitions: &[u8],
    count: usize,
    n: usize,
) -> Result<(), Refusal>
    requires viewed { Viewed classes.now transitions.now n count }
    requires holds_padded { HoldsPadded transitions.now count }
    requires count_value { rising (transitions_in transitions.now count) ≡ true }
    ensures { broken result ≡ first_broken (automaton_conditions (viewed classes.now transitions.now n
        count)) }
{
    let rule = ruled(transitions, count, n);
    if !reached(transitions, count, n, rule.numbered) {
        return Err(Refusal::InaccessibleState);
    }
    if !all_coaccessible(classes, transitions, count, n) {
        return Err(Refusal::UnusedState);
    }
    if !acyclic(transitions, count, n) {
        return Err(Refusal::Loop);
    }
    if !all_apart(classes, transitions, count, n) {
        return Err(Refusal::EquivalentStates);
    }
    if !rule.numbered {
        return Err(Refusal::Numbering);
    }
    Ok(())
}

// The same, by a fast path for automata that pass. Only if that shows nothing is each condition searched.
fn check_automaton(
    classes: &[u8],
    transitions: &[u8],
    count: usize,
    n: usize,
) -> Result<(), Refusal>
    requires viewed { Viewed classes.now transitions.now n count }
    requires holds_padded { HoldsPadded transitions.now count }
    requires count_value { rising (transitions_in transitions.now count) ≡ true }
    ensures { broken result ≡ first_broken (automaton_conditions (viewed classes.now transitions.now n
        count)) }
{
    let rule = ruled(transitions, count, n);
    if rule.numbered
        && loopless(transitions, count, n, rule.climbing)
        && settled(classes, transitions, count, n)
    {
        return Ok(());
    }
    check_by_search(classes, transitions, count, n)
}

// Conditions 7 to 13 of a table of the right length.
pub fn check_content(table: &[u8]) -> Result<(), Refusal>
    requires { length table.now ≡ table_bytes }
    ensures { broken result ≡ first_broken (content_conditions table.now) }
{
    if !layout_fits(table) {
        return Err(Refusal::Layout);
    }
    let count = transition_count(table);
    if !rises(&table[HEAD_BYTES..], count) {
        return Err(Refusal::Order);
    }
    let n = usize::from(table[0]);
    check_automaton(table, &table[HEAD_BYTES..], count, n)
}

// Conditions 5 and 7 to 13 of a table: the error is the first that is broken.
pub fn check(table: &[u8]) -> Result<(), Refusal>
    ensures { broken result ≡ table_refusal table.now }
{
    if table.len() != TABLE_BYTES {
        return Err(Refusal::TableLength);
    }
    check_content(table)
}
