// Tables of names for states, and transitions with other names.
ghost use Rattle.std.specs.Prelude.{◌≡◌};
ghost use Rattle.automata.specs.Renumber.{renumber_by};
ghost use Rattle.fields.specs.Fields.{Readable};
ghost use Rattle.table.specs.Layout.{transition_at};
ghost use Rattle.minimize.specs.Renaming.{entry_of, name_in, zeros};

use fields::{
    arg_of, arity_of, blank_entry, label_of, out_of, put_arg, put_arity, put_label, put_out,
};
use format::{BYTE_VALUES, TRANSITION_BYTES};

// An array of N bytes, all 0: no names, or room for transitions. A function of its own, so that no other proof computes
// with so many bytes.
pub fn zeros<const N: usize>() -> [u8; N]
    ensures { result ≡ zeros N }
{
    [0u8; N]
}

// The bytes of a transition whose states have other names.
pub fn renamed(transitions: &[u8], at: usize, names: &[u8; BYTE_VALUES]) -> [u8; TRANSITION_BYTES]
    requires { Readable transitions.now at }
    ensures { result ≡ entry_of (renumber_by (name_in names.now) (transition_at transitions.now at)) }
{
    let n = arity_of(transitions, at);
    let out = out_of(transitions, at);
    let mut entry = blank_entry();
    put_arity(&mut entry, n);
    put_out(&mut entry, names[out]);
    for k in 0..n {
        let q = arg_of(transitions, at, k);
        put_arg(&mut entry, k, names[q]);
    }
    put_label(&mut entry, label_of(transitions, at));
    entry
}
