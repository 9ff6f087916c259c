// For each state, the first and the last transition that have it as an argument.
ghost use Rattle.std.specs.Prelude.{◌≡◌, ◌*◌, ◌+◌, ◌<◌, get_or};
ghost use Rattle.fields.specs.Fields.{HoldsTransitions, Readable};
ghost use Rattle.format.specs.Format.{max_product, transition_bytes};
ghost use Rattle.table.specs.Layout.{arity_of};
ghost use Rattle.uses.specs.Spans.{Noted, NotedTo, UsesWithin};

use fields::{arg_of, arity_of};
use format::{BYTE_VALUES, TRANSITION_BYTES};

// Notes transition i for its argument k.
fn note_arg(
    transitions: &[u8],
    i: usize,
    k: usize,
    lows: &mut [u16; BYTE_VALUES],
    lasts: &mut [u16; BYTE_VALUES],
)
    requires readable { Readable transitions.now (transition_bytes * i) }
    requires i_lt_max_product { i < max_product }
    requires k_bound { k < arity_of transitions.now (transition_bytes * i) }
    requires noted_to { NotedTo transitions.now i k lows.old lasts.old }
    ensures { NotedTo transitions.now i (k + 1) lows.new lasts.new }
{
    let q = arg_of(transitions, TRANSITION_BYTES * i, k);
    if lasts[q] == 0 {
        lows[q] = i as u16;
        lasts[q] = (i + 1) as u16;
        return;
    }
    lasts[q] = (i + 1) as u16;
}

// Notes transition i for each of its arguments.
fn note_args(
    transitions: &[u8],
    i: usize,
    lows: &mut [u16; BYTE_VALUES],
    lasts: &mut [u16; BYTE_VALUES],
)
    requires readable { Readable transitions.now (transition_bytes * i) }
    requires i_lt_max_product { i < max_product }
    requires noted { Noted transitions.now i lows.old lasts.old }
    ensures { Noted transitions.now (i + 1) lows.new lasts.new }
{
    let arity = arity_of(transitions, TRANSITION_BYTES * i);
    for k in 0..arity {
        note_arg(transitions, i, k, lows, lasts);
    }
}

// One pass over the arguments. For each state `lows` gets the index of the first transition that has it as an
// argument, or 65,535 if there is none. `lasts` gets the index of the last one plus 1, or 0 if there is none.
pub fn note_uses(
    transitions: &[u8],
    count: usize,
    lows: &mut [u16; BYTE_VALUES],
    lasts: &mut [u16; BYTE_VALUES],
)
    requires { HoldsTransitions transitions.now count }
    ensures { UsesWithin transitions.now count lows.new lasts.new }
{
    *lows = [65535u16; BYTE_VALUES];
    *lasts = [0u16; BYTE_VALUES];
    for i in 0..count {
        note_args(transitions, i, lows, lasts);
    }
}

// The entry of a state.
pub fn entry(numbers: &[u16; BYTE_VALUES], q: u8) -> usize
    ensures { result ≡ get_or numbers.now q 0 }
{
    usize::from(numbers[usize::from(q)])
}
