// Transitions over names turned into a table. An order of the names is guessed, the transitions get its numbers and
// are sorted, and then the result is checked. Only one result is right by the rule, so if this one is, it is that
// one.
#![tactic(auto)]

mod lent; // transitions and the old table, lent for reading
mod reading; // the parts of a packed transition
mod renumbering; // names replaced by their numbers
mod sorting; // sorting by merging runs
mod looking; // whether the result is right
mod writing; // the new table
mod heap; // a heap of transitions
mod placing; // transitions offered to their outputs, or set waiting
mod givers; // few transitions to place first
mod leaves; // leaves, numbered without the heap
mod order; // an order of the names, guessed

ghost use Rattle.std.specs.Prelude.{cond, true, ◌≡◌, ◌≤◌, length};
ghost use Rattle.automata.specs.Renumber.{renumbered};
ghost use Rattle.format.specs.Format.{byte_values, max_states, table_bytes};
ghost use Rattle.table.specs.Layout.{class_at, encode};
ghost use Rattle.packed.specs.Heads.{HoldsPacked, Room, packed_in};
ghost use Rattle.numbering.specs.Steps.{Settled};
ghost use Rattle.numbering.specs.Tables.{BlankAfter};

pub use crate::givers::givers_of;
pub use crate::lent::{Buffers, OldTable, Transitions};
use crate::looking::sound;
use crate::order::guess;
use crate::renumbering::{number_names, renumber};
use crate::sorting::sort;
pub use crate::writing::write_run;
use crate::writing::write_table;
use format::BYTE_VALUES;
use minimize::renaming::zeros;

// Gives the names in the transitions their numbers by an order, and sorts. Returns whether the result is right by the
// rule.
fn settle(
    heads: &mut [u64],
    args: &mut [u64],
    count: usize,
    room: &mut [u64],
    spare: &mut [u64],
    order: &[u8; BYTE_VALUES],
    states: usize,
) -> bool
    requires holds_packed { HoldsPacked heads.old args.old count }
    requires room { Room room.old spare.old }
    requires room_len { length room.old ≡ length heads.old }
    requires states_le_max_states { states ≤ max_states }
    ensures { result ≡ true → Settled heads.old args.old count order.now states
        heads.new args.new }
{
    let mut numbers = zeros();
    if !number_names(order, states, &mut numbers) {
        return false;
    }
    if !renumber(heads, args, count, &numbers) {
        return false;
    }
    sort(heads, args, count, room, spare);
    let sorted = Transitions { heads, args, count };
    sound(&sorted, states)
}

// Writes the table of the automaton that the first `count` transitions and the classes of their names give. Returns
// whether it did: if the guessed order is wrong, the table stays as it is. The arrays are overwritten. `few` says
// whether the guess is made from few transitions first.
pub fn rebuild(
    buffers: Buffers<'_>,
    count: usize,
    classes: &[u8; BYTE_VALUES],
    table: &mut [u8],
    old: &OldTable<'_>,
    few: bool,
) -> bool
    requires holds_packed { HoldsPacked buffers.heads.now buffers.args.now count }
    requires room { Room buffers.room.now buffers.spare.now }
    requires room_len { length buffers.room.now ≡ length buffers.heads.now }
    requires next_len { length buffers.next.now ≡ length buffers.heads.now }
    requires table_len { length table.old ≡ table_bytes }
    requires blank_after { BlankAfter table.old old.now.transitions }
    ensures table_after { table.new ≡ cond result (encode (renumbered (class_at classes.now)
        (packed_in buffers.entry.heads.now buffers.entry.args.now count))) table.old }
    ensures heads_len { length buffers.exit.0.now ≡ length buffers.entry.heads.now }
    ensures args_len { length buffers.exit.1.0.now ≡ length buffers.entry.args.now }
    ensures room_len_2 { length buffers.exit.1.1.0.now ≡ length buffers.entry.room.now }
    ensures spare_len { length buffers.exit.1.1.1.0.now ≡ length buffers.entry.spare.now }
    ensures next_len_2 { length buffers.exit.1.1.1.1.0.now ≡ length buffers.entry.next.now }
{
    let Buffers {
        heads,
        args,
        room,
        spare,
        next,
    } = buffers;
    let mut order = zeros();
    let transitions = Transitions { heads, args, count };
    let Some(states) = guess(&transitions, next, room, spare, &mut order, old, few) else {
        return false;
    };
    if !settle(heads, args, count, room, spare, &order, states) {
        return false;
    }
    let sorted = Transitions { heads, args, count };
    write_table(table, classes, &order, states, &sorted, old.transitions);
    true
}
