// The names that are kept, as one chain for each state. Names rise along a chain.
ghost use Rattle.std.specs.Prelude.{◌≡◌, ◌+◌, ◌-◌, ◌<◌, ◌≤◌, length};
ghost use Rattle.format.specs.Format.{byte_values};
ghost use Rattle.pairs.specs.Counts.{entry};
ghost use Rattle.quotient.specs.Candidates.{KeptIn, kept_in};
ghost use Rattle.quotient.specs.Kept.{PutFirst, state_of};

use crate::named::{Candidates, KeptNames};
use format::BYTE_VALUES;

// A byte as an index. The bound of a byte in a field is known where the byte is an argument.
pub fn index(x: u8) -> usize
    ensures value { result ≡ x }
    ensures upper_bound { result < byte_values }
{
    usize::from(x)
}

// Whether the name x is kept.
pub fn is_kept(candidates: &Candidates<'_>, x: usize) -> bool
    requires { x ≤ candidates.now.n + candidates.now.m }
    ensures { result ≡ kept_in candidates.now x }
{
    if x <= candidates.n {
        return candidates.opens[x] != 0;
    }
    usize::from(candidates.names[x - candidates.n - 1]) == x
}

// The state of the name x: x itself, or the state of the subtree whose own name x is.
fn state_of(candidates: &Candidates<'_>, x: usize) -> usize
    requires { x ≤ candidates.now.n + candidates.now.m }
    ensures value { result ≡ state_of candidates.now.n candidates.now.states.now x }
    ensures upper_bound { result < byte_values }
{
    if x <= candidates.n {
        return x;
    }
    index(candidates.states[x - candidates.n - 1])
}

// Puts the name x at the head of the chain of q.
fn put_first(kept: &mut KeptNames, q: usize, x: usize)
    requires firsts_len { length kept.old.firsts ≡ byte_values }
    requires nexts_len { length kept.old.nexts ≡ byte_values }
    requires sizes_len { length kept.old.sizes ≡ byte_values }
    requires q_lt_byte_values { q < byte_values }
    requires x_lt_byte_values { x < byte_values }
    requires q_bound { entry kept.old.sizes q < 255 }
    ensures { PutFirst q x kept.old.firsts kept.old.nexts kept.old.sizes kept.new.firsts kept.new.nexts
        kept.new.sizes }
{
    kept.nexts[x] = kept.firsts[q];
    kept.firsts[q] = x as u8;
    kept.sizes[q] += 1;
}

// Puts the name x at the head of the chain of its state, if it is kept.
fn keep_name(candidates: &Candidates<'_>, x: usize, kept: &mut KeptNames)
    requires le_x { 1 ≤ x }
    requires x_bound { x ≤ candidates.now.n + candidates.now.m }
    requires kept_above { KeptIn candidates.now x kept.old }
    ensures { KeptIn candidates.now (x - 1) kept.new }
{
    if is_kept(candidates, x) {
        put_first(kept, state_of(candidates, x), x);
    }
}

// Fills in the chains of the names that are kept. The chains are lent, because an array that is returned is copied.
pub fn keep(candidates: &Candidates<'_>, kept: &mut KeptNames)
    ensures { KeptIn candidates.now 0 kept.new }
{
    kept.firsts = [0u8; BYTE_VALUES];
    kept.nexts = [0u8; BYTE_VALUES];
    kept.sizes = [0u8; BYTE_VALUES];
    for x in (1..=candidates.n + candidates.m).rev() {
        keep_name(candidates, x, kept);
    }
}
