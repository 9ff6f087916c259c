// Names replaced by their numbers. The order is a guess, so a name may have no number.
ghost use Rattle.std.specs.Prelude.{IfSome, true, ◌≡◌, ◌*◌, ◌+◌, ◌<◌, ◌^◌, ◌≤◌, ℕ, get_or, length};
ghost use Rattle.format.specs.Format.{AllBytes, byte_values, max_arity, max_states};
ghost use Rattle.minimize.specs.Renaming.{name_in, zeros};
ghost use Rattle.packed.specs.Packed.{digits, pad_to};
ghost use Rattle.packed.specs.Heads.{HoldsPacked, Room, head_meta, head_out};
ghost use Rattle.numbering.specs.Numbers.{ArgsByNumber, number_at};
ghost use Rattle.numbering.specs.Steps.{Numbered, Renumbered};

use crate::reading::{arity_of, out_of, place_of};
use format::{BYTE_VALUES, MAX_ARITY};
use packed::padded;

// Gives the first `states` names of an order their numbers. Returns whether each name is not 0 and occurs once.
pub fn number_names(
    order: &[u8; BYTE_VALUES],
    states: usize,
    numbers: &mut [u8; BYTE_VALUES],
) -> bool
    requires states_le_max_states { states ≤ max_states }
    requires numbers_value { numbers.old ≡ zeros byte_values }
    ensures { result ≡ true → Numbered order.now states numbers.new }
{
    for k in 0..states {
        let q = order[k] as usize;
        if q == 0 {
            return false;
        }
        if numbers[q] != 0 {
            return false;
        }
        numbers[q] = (k + 1) as u8;
    }
    true
}

// A number and, as its next digit to base 256, the number of the name at place k.
fn with_number(v: u64, args: u64, k: usize, numbers: &[u8; BYTE_VALUES]) -> u64
    requires k_lt_max_arity { k < max_arity }
    requires v_bound { v < 2 ^ 56 }
    ensures value { result ≡ byte_values * v + number_at numbers.now args k }
    ensures upper_bound { result < byte_values * v + byte_values }
{
    256 * v + numbers[place_of(args, k)] as u64
}

// The arguments with their numbers.
pub fn args_by_number(args: u64, numbers: &[u8; BYTE_VALUES]) -> u64
    ensures { result ≡ digits (number_at numbers.now args) 0 max_arity 0 }
{
    let v = with_number(0, args, 0, numbers);
    let v = with_number(v, args, 1, numbers);
    let v = with_number(v, args, 2, numbers);
    let v = with_number(v, args, 3, numbers);
    let v = with_number(v, args, 4, numbers);
    let v = with_number(v, args, 5, numbers);
    let v = with_number(v, args, 6, numbers);
    with_number(v, args, 7, numbers)
}

// The head with the number of its output.
fn head_by_number(head: u64, numbers: &[u8; BYTE_VALUES]) -> u64
    ensures { result ≡ byte_values * head_meta head + name_in numbers.now (head_out head) }
{
    256 * (head / 256) + numbers[out_of(head)] as u64
}

// Whether the output of a transition has a number.
fn has_number(head: u64, numbers: &[u8; BYTE_VALUES]) -> bool
    ensures { result ≡ true → 1 ≤ name_in numbers.now (head_out head) }
{
    numbers[out_of(head)] != 0
}

// All eight arguments with their numbers, without a loop, if each name has one.
fn rename_all(args: u64, numbers: &[u8; BYTE_VALUES]) -> Option<u64>
    ensures { IfSome result (λ a. ArgsByNumber numbers.now args max_arity a) }
{
    let a = with_number(0, args, 0, numbers);
    let b = with_number(a, args, 1, numbers);
    let c = with_number(b, args, 2, numbers);
    let d = with_number(c, args, 3, numbers);
    let e = with_number(d, args, 4, numbers);
    let f = with_number(e, args, 5, numbers);
    let g = with_number(f, args, 6, numbers);
    let h = with_number(g, args, 7, numbers);
    let first = (a != 0) & (b != 256 * a) & (c != 256 * b) & (d != 256 * c);
    let last = (e != 256 * d) & (f != 256 * e) & (g != 256 * f) & (h != 256 * g);
    if !(first & last) {
        return None;
    }
    Some(h)
}

// The first `arity` arguments with their numbers, if each name has one. Neighbouring transitions mostly have the same
// number of arguments, so the processor predicts the end of the loop.
fn rename_args(args: u64, arity: usize, numbers: &[u8; BYTE_VALUES]) -> Option<u64>
    requires { arity ≤ max_arity }
    ensures { IfSome result (λ a. ArgsByNumber numbers.now args arity a) }
{
    if arity == MAX_ARITY {
        return rename_all(args, numbers);
    }
    let mut whole = true;
    let mut v = 0;
    for k in 0..arity {
        let next = with_number(v, args, k, numbers);
        whole = whole & (next != 256 * v);
        v = next;
    }
    if !whole {
        return None;
    }
    Some(padded(v, arity))
}

// Replaces the names in the first `count` transitions by their numbers. Returns false at the first name that has
// none.
pub fn renumber(
    heads: &mut [u64],
    args: &mut [u64],
    count: usize,
    numbers: &[u8; BYTE_VALUES],
) -> bool
    requires holds_packed { HoldsPacked heads.old args.old count }
    requires numbers_value { name_in numbers.now 0 ≡ 0 }
    requires all_bytes { AllBytes numbers.now }
    ensures room { Room heads.new args.new }
    ensures renumbered { result ≡ true → Renumbered numbers.now heads.old args.old
        heads.new args.new count }
{
    for i in 0..count {
        let head = heads[i];
        let Some(renamed) = rename_args(args[i], arity_of(head), numbers) else {
            return false;
        };
        if !has_number(head, numbers) {
            return false;
        }
        heads[i] = head_by_number(head, numbers);
        args[i] = renamed;
    }
    true
}
