// Transitions placed on the way to an order. If all arguments have numbers, a transition is offered to its output;
// else it waits in the list of an argument that has none. Nothing is proved of the choice.
ghost use Rattle.std.specs.Prelude.{IfSome, ◌≡◌, ◌<◌, ◌≤◌, length};
ghost use Rattle.format.specs.Format.{byte_values};

use crate::lent::Transitions;
use crate::reading::{is_before, out_of, place_of};
use crate::renumbering::args_by_number;
use format::{BYTE_VALUES, MAX_ARITY};

// The numbers given so far, and the transitions that were placed. Transitions count from 1; 0 is none.
#[derive(Drop)]
pub struct Placing {
    // The number of each name; 0 for none.
    pub numbers: [u8; BYTE_VALUES],
    // For each name without a number the last transition that waits for it. Each has a link to the one before.
    pub lists: [u16; BYTE_VALUES],
    // The best transition into each output.
    pub bests: [u16; BYTE_VALUES],
    // Whether an output is new, and the outputs that are.
    pub fresh: [bool; BYTE_VALUES],
    pub news: [u8; BYTE_VALUES],
    pub new: usize,
    ghost few: { new ≤ byte_values },
}

// q if it is greater than `most` and has no number; else `most`.
fn later(most: usize, q: usize, numbers: &[u8; BYTE_VALUES]) -> usize
    requires most_lt_byte_values { most < byte_values }
    requires q_lt_byte_values { q < byte_values }
    ensures { result < byte_values }
{
    if q <= most {
        return most;
    }
    if numbers[q] != 0 {
        return most;
    }
    q
}

// The greatest name among the arguments that has no number, if one has none. Names of states are their old numbers, so
// a transition mostly waits for the argument that is numbered last. Places beyond the arguments are 0.
fn waits_on(args: u64, numbers: &[u8; BYTE_VALUES]) -> Option<usize>
    ensures { IfSome result (λ q. q < byte_values) }
{
    let mut most = 0;
    for k in 0..MAX_ARITY {
        let q = place_of(args, k);
        if q == 0 {
            break;
        }
        most = later(most, q, numbers);
    }
    if most == 0 {
        return None;
    }
    Some(most)
}

impl Placing {
    // Whether transition i comes before the best one into output o so far.
    fn improves(&self, transitions: &Transitions<'_>, i: usize, o: usize) -> bool
        requires i_in_bounds { i < length transitions.now.heads.now }
        requires o_lt_byte_values { o < byte_values }
    {
        let best = self.bests[o] as usize;
        if best == 0 {
            return true;
        }
        if best > transitions.heads.len() {
            return true;
        }
        let head = transitions.heads[i];
        let other = transitions.heads[best - 1];
        if head / 256 != other / 256 {
            return head < other;
        }
        is_before(
            head,
            args_by_number(transitions.args[i], &self.numbers),
            other,
            args_by_number(transitions.args[best - 1], &self.numbers),
        )
    }

    // Makes transition i, whose arguments have numbers, the best one into its output o if it comes before the best so
    // far. If o was not yet new, it is now.
    fn offer(&mut self, transitions: &Transitions<'_>, i: usize, o: usize)
        requires i_in_bounds { i < length transitions.now.heads.now }
        requires o_lt_byte_values { o < byte_values }
        ensures { self.exit.now.numbers ≡ self.entry.now.numbers }
    {
        if !self.improves(transitions, i, o) {
            return;
        }
        self.bests[o] = (i + 1) as u16;
        if self.fresh[o] {
            return;
        }
        if self.new >= BYTE_VALUES {
            return;
        }
        self.fresh[o] = true;
        self.news[self.new] = o as u8;
        self.new += 1;
    }

    // Offers transition i to its output, or puts it in the list of an argument without a number. It is dropped if its
    // output has a number.
    pub fn place(&mut self, transitions: &Transitions<'_>, i: usize, next: &mut [u16])
        requires i_in_bounds { i < length transitions.now.heads.now }
        requires next_len { length next.old ≡ length transitions.now.heads.now }
        ensures { self.exit.now.numbers ≡ self.entry.now.numbers }
    {
        let o = out_of(transitions.heads[i]);
        if self.numbers[o] != 0 {
            return;
        }
        if let Some(q) = waits_on(transitions.args[i], &self.numbers) {
            next[i] = self.lists[q];
            self.lists[q] = (i + 1) as u16;
            return;
        }
        self.offer(transitions, i, o);
    }

    // Places all transitions.
    pub fn place_all(&mut self, transitions: &Transitions<'_>, next: &mut [u16])
        requires { length next.old ≡ length transitions.now.heads.now }
        ensures { self.exit.now.numbers ≡ self.entry.now.numbers }
    {
        for i in 0..transitions.count {
            self.place(transitions, i, next);
        }
    }

    // Places the transitions that waited for name q.
    pub fn place_list(&mut self, transitions: &Transitions<'_>, q: usize, next: &mut [u16])
        requires q_lt_byte_values { q < byte_values }
        requires next_len { length next.old ≡ length transitions.now.heads.now }
        ensures { self.exit.now.numbers ≡ self.entry.now.numbers }
    {
        let mut at = self.lists[q] as usize;
        self.lists[q] = 0;
        for _ in 0..next.len() {
            if at == 0 {
                return;
            }
            if at > next.len() {
                return;
            }
            let after = next[at - 1] as usize;
            self.place(transitions, at - 1, next);
            at = after;
        }
    }
}
