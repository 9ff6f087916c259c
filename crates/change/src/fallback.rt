// The new table if no guess of the numbers is right. The transitions between names go through the scratch, and a
// plain search finds the numbers. It exists so that every change is answered.
ghost use Rattle.std.specs.Prelude.{Bool, List, ◌≡◌, ◌+◌, ℕ, length};
ghost use Rattle.automata.specs.NamedChange.{changed_automaton};
ghost use Rattle.format.specs.Format.{max_transitions, scratch_bytes};
ghost use Rattle.table.specs.Layout.{decode, encode};
ghost use Rattle.trees.specs.Tree.{Tree};
ghost use Rattle.change.specs.Between.{Run};
ghost use Rattle.change.specs.Given.{FittingIn, SomeFittingIn};

use crate::arrays::{Arrays, LARGE};
use crate::rebuilding::make_all;
use format::BYTE_VALUES;
use minimize::write::write;
use numbering::{Transitions, write_run};
use quotient::{KeptNames, NamedSubtrees};

// Writes the transitions between names into the scratch. Returns how many there are.
fn write_scratch(
    table: &[u8],
    count: usize,
    named: &NamedSubtrees<'_>,
    kept: &KeptNames,
    scratch: &mut [u8],
) -> usize
    requires some_fitting { SomeFittingIn table.now count named.now kept.now max_transitions }
    requires scratch_len { length scratch.old ≡ scratch_bytes }
    ensures { (inserting : Bool) (t : Tree) (o cl : List ℕ) →
        FittingIn inserting t table.now count o cl named.now kept.now →
        Run t table.now named.now.names.now scratch.new result (named.now.n + named.now.subtrees.now.count) }
{
    let mut heads = [0u64; LARGE];
    let mut args = [0u64; LARGE];
    let mut ends = [0u16; LARGE];
    let made = make_all(table, count, named, kept, &mut heads, &mut args, &mut ends);
    let transitions = Transitions {
        heads: &heads,
        args: &args,
        count: made,
    };
    write_run(scratch, 0, &transitions);
    made
}

// Writes the new table through the scratch.
pub fn renumber_table(
    table: &mut [u8],
    scratch: &mut [u8],
    count: usize,
    named: &NamedSubtrees<'_>,
    kept: &KeptNames,
    classes: &[u8; BYTE_VALUES],
)
    requires some_fitting { SomeFittingIn table.old count named.now kept.now max_transitions }
    requires scratch_len { length scratch.old ≡ scratch_bytes }
    ensures { (inserting : Bool) (t : Tree) (o : List ℕ) →
        FittingIn inserting t table.old count o classes.now named.now kept.now →
        table.new ≡ encode (changed_automaton inserting t (decode table.old)) }
{
    let made = write_scratch(table, count, named, kept, scratch);
    let _ = write(
        scratch,
        made,
        classes,
        named.n + named.subtrees.count,
        table,
    );
}
