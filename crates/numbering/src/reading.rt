// The parts of a packed transition: its head, which has child count, label and output, and its arguments.
ghost use Rattle.std.specs.Prelude.{◌≡◌, ◌<◌};
ghost use Rattle.format.specs.Format.{byte_values, max_arity};
ghost use Rattle.packed.specs.Packed.{before};
ghost use Rattle.packed.specs.Heads.{head_arity, head_label, head_meta, head_out, place_of};

use packed::comes_before;

// Argument k.
pub fn place_of(args: u64, k: usize) -> usize
    requires { k < max_arity }
    ensures value { result ≡ place_of args k }
    ensures upper_bound { result < byte_values }
{
    ((args >> (8 * (7 - k))) % 256) as usize
}

pub fn out_of(head: u64) -> usize
    ensures value { result ≡ head_out head }
    ensures upper_bound { result < byte_values }
{
    (head % 256) as usize
}

pub fn label_of(head: u64) -> u16
    ensures { result ≡ head_label head }
{
    (head / 256 % 65536) as u16
}

pub fn arity_of(head: u64) -> usize
    ensures { result ≡ head_arity head }
{
    (head / 256 / 65536) as usize
}

// Whether one transition comes before another. Outputs do not count.
pub fn is_before(head: u64, args: u64, other: u64, others: u64) -> bool
    ensures { result ≡ before (head_meta head) args (head_meta other) others }
{
    comes_before(head / 256, args, other / 256, others)
}
