// The fields of the transition that starts at a byte, read and written. Only this file and crate table know where
// they stand. An entry is the bytes of one transition.
ghost use Rattle.std.specs.Prelude.{◌≡◌, ◌+◌, ◌<◌, ◌≤◌, length, take};
ghost use Rattle.format.specs.Format.{label_bytes, label_written, max_arity, max_label, transition_bytes};
ghost use Rattle.table.specs.Layout.{arg_of, arity_of, label_of, out_of};
ghost use Rattle.fields.specs.Entries.{HasFields, no_arg, put_at};

use format::{ARGS_AT, ARITY_AT, LABEL_BYTES, OUT_AT, TRANSITION_BYTES, label_from};

pub fn label_of(transitions: &[u8], at: usize) -> u16
    requires { at + transition_bytes ≤ length transitions.now }
    ensures value { result ≡ label_of transitions.now at }
    ensures upper_bound { result ≤ max_label }
{
    label_from(transitions[at], transitions[at + 1])
}

pub fn arity_of(transitions: &[u8], at: usize) -> usize
    requires { at + transition_bytes ≤ length transitions.now }
    ensures { result ≡ arity_of transitions.now at }
{
    usize::from(transitions[at + ARITY_AT])
}

pub fn arg_of(transitions: &[u8], at: usize, k: usize) -> usize
    requires transition_bytes_in_bounds { at + transition_bytes ≤ length transitions.now }
    requires k_lt_max_arity { k < max_arity }
    ensures value { result ≡ arg_of transitions.now at k }
    ensures upper_bound { result < 256 }
{
    usize::from(transitions[at + ARGS_AT + k])
}

pub fn out_of(transitions: &[u8], at: usize) -> usize
    requires { at + transition_bytes ≤ length transitions.now }
    ensures value { result ≡ out_of transitions.now at }
    ensures upper_bound { result < 256 }
{
    usize::from(transitions[at + OUT_AT])
}

// An entry with no label, no arguments and no output.
pub fn blank_entry() -> [u8; TRANSITION_BYTES]
    ensures { HasFields result 0 0 no_arg 0 }
{
    [0u8; TRANSITION_BYTES]
}

// The transition that starts at a byte, as an entry.
pub fn entry_at(transitions: &[u8], at: usize) -> [u8; TRANSITION_BYTES]
    requires { at + transition_bytes ≤ length transitions.now }
    ensures { HasFields result (label_of transitions.now at) (arity_of transitions.now at)
        (arg_of transitions.now at) (out_of transitions.now at) }
{
    let mut entry = [0u8; TRANSITION_BYTES];
    entry.copy_from_slice(&transitions[at..at + TRANSITION_BYTES]);
    entry
}

pub fn put_label(entry: &mut [u8; TRANSITION_BYTES], label: u16)
    requires len { length entry.old ≡ transition_bytes }
    requires label_le_max_label { label ≤ max_label }
    ensures has_fields { HasFields entry.new label (arity_of entry.old 0) (arg_of entry.old 0)
        (out_of entry.old 0) }
    ensures after { take label_bytes entry.new ≡ label_written label }
{
    entry[..LABEL_BYTES].copy_from_slice(&label.to_be_bytes());
}

pub fn put_arity(entry: &mut [u8; TRANSITION_BYTES], arity: usize)
    requires len { length entry.old ≡ transition_bytes }
    requires arity_le_max_arity { arity ≤ max_arity }
    ensures { HasFields entry.new (label_of entry.old 0) arity (arg_of entry.old 0)
        (out_of entry.old 0) }
{
    entry[ARITY_AT] = arity as u8;
}

pub fn put_arg(entry: &mut [u8; TRANSITION_BYTES], k: usize, q: u8)
    requires len { length entry.old ≡ transition_bytes }
    requires k_lt_max_arity { k < max_arity }
    ensures { HasFields entry.new (label_of entry.old 0) (arity_of entry.old 0)
        (put_at (arg_of entry.old 0) k q) (out_of entry.old 0) }
{
    entry[ARGS_AT + k] = q;
}

pub fn put_out(entry: &mut [u8; TRANSITION_BYTES], q: u8)
    requires { length entry.old ≡ transition_bytes }
    ensures { HasFields entry.new (label_of entry.old 0) (arity_of entry.old 0)
        (arg_of entry.old 0) q }
{
    entry[OUT_AT] = q;
}
