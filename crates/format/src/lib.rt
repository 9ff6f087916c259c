// The widths and limits of document 01 for code. specs/Format.antt has the same numbers, and says what each is.
#![tactic(auto)]

ghost use Rattle.std.specs.Prelude.{◌≡◌, ◌≤◌};
ghost use Rattle.format.specs.Format.{label_from, max_label};

mod refusal;

pub use refusal::Refusal;

pub const BYTE_VALUES: usize = 256;

pub const BYTE_PAIRS: usize = BYTE_VALUES * BYTE_VALUES;

pub const LABEL_BYTES: usize = 2;

pub const MAX_LABEL: usize = BYTE_PAIRS - 1;

pub const FIRST_BOX: usize = 61440;

pub const MAX_ARITY: usize = 8;

pub const NODE_BYTES: usize = LABEL_BYTES + 1;

pub const MAX_NODES: usize = 48;

pub const MAX_LISTING: usize = NODE_BYTES * MAX_NODES;

pub const MAX_STATES: usize = 200;

pub const MAX_TRANSITIONS: usize = 1024;

pub const COUNT_AT: usize = MAX_STATES + 1;

pub const HEAD_BYTES: usize = MAX_STATES + 3;

pub const ARITY_AT: usize = LABEL_BYTES;

pub const ARGS_AT: usize = ARITY_AT + 1;

pub const OUT_AT: usize = ARGS_AT + MAX_ARITY;

pub const TRANSITION_BYTES: usize = OUT_AT + 1;

pub const TABLE_BYTES: usize = HEAD_BYTES + TRANSITION_BYTES * MAX_TRANSITIONS;

pub const MAX_PRODUCT: usize = 3072;

pub const SCRATCH_BYTES: usize = TRANSITION_BYTES * MAX_PRODUCT;

pub const MAX_LINE: usize = 512;

pub const MAX_LINE_NODES: usize = 126;

pub const LISTING_BYTES: usize = NODE_BYTES * MAX_LINE_NODES;

// The label that two bytes make, high byte first.
pub fn label_from(high: u8, low: u8) -> u16
    ensures value { result ≡ label_from high low }
    ensures upper_bound { result ≤ max_label }
{
    u16::from_be_bytes([high, low])
}
