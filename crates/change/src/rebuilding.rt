// The table of the changed set. Its transitions are made between names. The numbers of the names are guessed, from
// few transitions first and then from all. If a guess is right, the table is written. If none is, the transitions go
// through the scratch, and a search by the rule finds the numbers.
ghost use Rattle.std.specs.Prelude.{Bool, cond, false, true, List, Some, ◌≡◌, ◌≤◌, ℕ, length};
ghost use Rattle.automata.specs.NamedChange.{changed_automaton};
ghost use Rattle.format.specs.Format.{max_transitions, scratch_bytes};
ghost use Rattle.packed.specs.Heads.{Room};
ghost use Rattle.table.specs.Layout.{decode, encode};
ghost use Rattle.trees.specs.Tree.{Tree};
ghost use Rattle.change.specs.Between.{Packed};
ghost use Rattle.change.specs.Given.{FittingIn, SomeFittingIn, small_transitions};
ghost use Rattle.change.specs.Sizes.{is_small};

use crate::arrays::{Arrays, LARGE, SMALL};
use crate::fallback::renumber_table;
use crate::fitting::Size;
use format::{BYTE_VALUES, HEAD_BYTES};
use numbering::{Buffers, OldTable, givers_of, rebuild};
use quotient::{KeptNames, NamedSubtrees, make};

// Writes the transitions between names to `heads` and `args`, as two numbers each. Returns how many there are. `ends`
// gets, for each transition of the table, how many there are after it.
pub fn make_all(
    table: &[u8],
    count: usize,
    named: &NamedSubtrees<'_>,
    kept: &KeptNames,
    heads: &mut [u64],
    args: &mut [u64],
    ends: &mut [u16],
) -> usize
    requires some_fitting { SomeFittingIn table.now count named.now kept.now (length heads.old) }
    requires room { Room heads.old args.old }
    ensures { (inserting : Bool) (t : Tree) (o cl : List ℕ) →
        FittingIn inserting t table.now count o cl named.now kept.now →
        Packed t table.now named.now.names.now heads.new args.new result }
{
    make(&table[HEAD_BYTES..], count, named, kept, heads, args, ends)
}

// Writes the new table if the guessed numbers are right; else leaves the table as it is. Returns whether it wrote.
// The arrays are overwritten. `few` says whether the guess is made from few transitions first.
fn attempt<const N: usize>(
    table: &mut [u8],
    count: usize,
    named: &NamedSubtrees<'_>,
    kept: &KeptNames,
    classes: &[u8; BYTE_VALUES],
    arrays: &mut Arrays<N>,
    few: bool,
) -> bool
    requires some_fitting { SomeFittingIn table.old count named.now kept.now N }
    requires few_enough { N ≤ max_transitions }
    ensures table_after { (inserting : Bool) (t : Tree) (o : List ℕ) →
        FittingIn inserting t table.old count o classes.now named.now kept.now →
        table.new ≡ cond result (encode (changed_automaton inserting t (decode table.old)))
        table.old }
    ensures table_unchanged { result ≡ false → table.new ≡ table.old }
{
    let made = make_all(
        table,
        count,
        named,
        kept,
        &mut arrays.heads,
        &mut arrays.args,
        &mut arrays.ends,
    );
    let subtrees = named.subtrees;
    let givers = givers_of(
        &table[HEAD_BYTES..],
        count,
        subtrees.count,
        &subtrees.states,
        named.names,
    );
    let old = OldTable {
        states: named.n,
        transitions: count,
        ends: &arrays.ends,
        givers: &givers,
    };
    let buffers = Buffers {
        heads: &mut arrays.heads,
        args: &mut arrays.args,
        room: &mut arrays.room,
        spare: &mut arrays.spare,
        next: &mut arrays.next,
    };
    rebuild(buffers, made, classes, table, &old, few)
}

// Attempts it from few transitions and, if that fails, from all, in arrays of length N. The second attempt makes the
// transitions anew, because the first has overwritten the arrays.
fn rebuild_in<const N: usize>(
    table: &mut [u8],
    count: usize,
    named: &NamedSubtrees<'_>,
    kept: &KeptNames,
    classes: &[u8; BYTE_VALUES],
) -> bool
    requires some_fitting { SomeFittingIn table.old count named.now kept.now N }
    requires few_enough { N ≤ max_transitions }
    ensures table_after { (inserting : Bool) (t : Tree) (o : List ℕ) →
        FittingIn inserting t table.old count o classes.now named.now kept.now →
        table.new ≡ cond result (encode (changed_automaton inserting t (decode table.old)))
        table.old }
    ensures table_unchanged { result ≡ false → table.new ≡ table.old }
{
    let mut arrays = Arrays::<N>::new();
    if attempt(table, count, named, kept, classes, &mut arrays, true) {
        return true;
    }
    attempt(table, count, named, kept, classes, &mut arrays, false)
}

// The same in arrays that are long enough.
fn rebuild_table(
    table: &mut [u8],
    count: usize,
    named: &NamedSubtrees<'_>,
    kept: &KeptNames,
    classes: &[u8; BYTE_VALUES],
    size: Size,
) -> bool
    requires some_fitting { SomeFittingIn table.old count named.now kept.now max_transitions }
    requires some_fitting_2 { is_small (Some size) ≡ true →
        SomeFittingIn table.old count named.now kept.now small_transitions }
    ensures table_after { (inserting : Bool) (t : Tree) (o : List ℕ) →
        FittingIn inserting t table.old count o classes.now named.now kept.now →
        table.new ≡ cond result (encode (changed_automaton inserting t (decode table.old)))
        table.old }
    ensures table_unchanged { result ≡ false → table.new ≡ table.old }
{
    match size {
        Size::Small => rebuild_in::<SMALL>(table, count, named, kept, classes),
        Size::Large => rebuild_in::<LARGE>(table, count, named, kept, classes),
    }
}

// Writes the new table, through the scratch if no guess is right. If `size` is small, its transitions fit small arrays.
pub fn replace(
    table: &mut [u8],
    scratch: &mut [u8],
    count: usize,
    named: &NamedSubtrees<'_>,
    kept: &KeptNames,
    classes: &[u8; BYTE_VALUES],
    size: Size,
)
    requires some_fitting { SomeFittingIn table.old count named.now kept.now max_transitions }
    requires some_fitting_2 { is_small (Some size) ≡ true →
        SomeFittingIn table.old count named.now kept.now small_transitions }
    requires scratch_len { length scratch.old ≡ scratch_bytes }
    ensures { (inserting : Bool) (t : Tree) (o : List ℕ) →
        FittingIn inserting t table.old count o classes.now named.now kept.now →
        table.new ≡ encode (changed_automaton inserting t (decode table.old)) }
{
    if rebuild_table(table, count, named, kept, classes, size) {
        return;
    }
    renumber_table(table, scratch, count, named, kept, classes);
}
