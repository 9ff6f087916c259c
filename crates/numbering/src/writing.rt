// The new table. Its transitions come from the two lists, and everything beyond them is 0.
ghost use Rattle.std.specs.Prelude.{◌≡◌, ◌*◌, ◌+◌, ◌<◌, ◌≤◌, ℕ, get_or, length};
ghost use Rattle.fields.specs.Entries.{HasFields};
ghost use Rattle.format.specs.Format.{head_bytes, max_states, max_transitions, table_bytes, transition_bytes};
ghost use Rattle.minimize.specs.Written.{Ordered, class_byte};
ghost use Rattle.packed.specs.Heads.{Packs, head_arity, head_label, head_out, place_of};
ghost use Rattle.numbering.specs.Tables.{BlankAfter, RunPut, TablePut, ZerosBetween};

use crate::lent::Transitions;
use crate::reading::{arity_of, label_of, out_of, place_of};
use fields::{blank_entry, put_arg, put_arity, put_label, put_out};
use format::{BYTE_VALUES, COUNT_AT, HEAD_BYTES, MAX_ARITY, TRANSITION_BYTES};
use minimize::write::write_classes;
use sorted::write;

// The bytes of a transition.
fn entry_of(head: u64, args: u64) -> [u8; TRANSITION_BYTES]
    requires { Packs head args }
    ensures { HasFields result (head_label head) (head_arity head) (place_of args) (head_out head) }
{
    let mut entry = blank_entry();
    put_label(&mut entry, label_of(head));
    put_arity(&mut entry, arity_of(head));
    put_out(&mut entry, out_of(head) as u8);
    for k in 0..MAX_ARITY {
        put_arg(&mut entry, k, place_of(args, k) as u8);
    }
    entry
}

// Writes transitions from byte `start` on.
pub fn write_run(to: &mut [u8], start: usize, transitions: &Transitions<'_>)
    requires start_le_head_bytes { start ≤ head_bytes }
    requires count_in_bounds { start + transition_bytes * transitions.now.count ≤ length to.old }
    ensures { RunPut to.old to.new transitions.now.heads.now transitions.now.args.now start transitions.now.count }
{
    for i in 0..transitions.count {
        let entry = entry_of(transitions.heads[i], transitions.args[i]);
        write(to, start + TRANSITION_BYTES * i, entry);
    }
}

// Writes zeros from byte `start` up to byte `end`.
fn clear_between(table: &mut [u8], start: usize, end: usize)
    requires table_len { length table.old ≡ table_bytes }
    requires end_le_table_bytes { end ≤ table_bytes }
    ensures { ZerosBetween table.old table.new start end }
{
    if start < end {
        table[start..end].fill(0);
    }
}

// Writes a table over one with `old` transitions, whose bytes after these are 0 already.
pub fn write_table(
    table: &mut [u8],
    classes: &[u8],
    order: &[u8; BYTE_VALUES],
    states: usize,
    transitions: &Transitions<'_>,
    old: usize,
)
    requires table_len { length table.old ≡ table_bytes }
    requires le_max_transitions { old ≤ max_transitions }
    requires blank_after { BlankAfter table.old old }
    requires states_le_max_states { states ≤ max_states }
    requires ordered { Ordered classes.now order.now states }
    ensures { TablePut table.new states (class_byte classes.now order.now states)
        transitions.now.heads.now transitions.now.args.now transitions.now.count }
{
    let count = transitions.count;
    table[0] = states as u8;
    write_classes(table, classes, order, states);
    table[COUNT_AT] = (count / 256) as u8;
    table[COUNT_AT + 1] = (count % 256) as u8;
    write_run(table, HEAD_BYTES, transitions);
    clear_between(
        table,
        HEAD_BYTES + TRANSITION_BYTES * count,
        HEAD_BYTES + TRANSITION_BYTES * old,
    );
}
