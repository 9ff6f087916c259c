// What is lent: the transitions between names, arrays to work in, and what is known of the table that they replace.
ghost use Rattle.std.specs.Prelude.{◌≤◌};
ghost use Rattle.format.specs.Format.{max_states, max_transitions};
ghost use Rattle.packed.specs.Heads.{HoldsPacked};

use format::BYTE_VALUES;

// Packed transitions: the first `count` entries of two lists, one of heads and one of arguments.
#[derive(Clone, Copy, Drop)]
pub struct Transitions<'a> {
    pub heads: &'a [u64],
    pub args: &'a [u64],
    pub count: usize,
    ghost holds: { HoldsPacked heads.now args.now count },
}

// Arrays to work in: two for the transitions, two of the same length to sort them and for a heap, and one for links
// between them.
#[derive(Drop)]
pub struct Buffers<'a> {
    pub heads: &'a mut [u64],
    pub args: &'a mut [u64],
    pub room: &'a mut [u64],
    pub spare: &'a mut [u64],
    pub next: &'a mut [u16],
}

// The old table has so many states and transitions. `ends` says how many entries had been made after each of its
// transitions, and `givers` which transition gave each state its number, counted from 1; 0 is none.
#[derive(Clone, Copy, Drop)]
pub struct OldTable<'a> {
    pub states: usize,
    pub transitions: usize,
    pub ends: &'a [u16],
    pub givers: &'a [u16; BYTE_VALUES],
    ghost states_few: { states ≤ max_states },
    ghost transitions_few: { transitions ≤ max_transitions },
}

impl OldTable<'_> {
    // How many entries had been made after transition g, counted from 1; at most `limit`.
    pub(crate) fn end_of(&self, g: usize, limit: usize) -> usize
        ensures { result ≤ limit }
    {
        if (g == 0) | (g > self.ends.len()) {
            return 0;
        }
        limit.min(self.ends[g - 1] as usize)
    }

    // How many entries had been made before it.
    pub(crate) fn start_of(&self, g: usize, limit: usize) -> usize
        ensures { result ≤ limit }
    {
        self.end_of(g.saturating_sub(1), limit)
    }

    // How many entries had been made after all transitions.
    pub(crate) fn made(&self, limit: usize) -> usize
        ensures { result ≤ limit }
    {
        self.end_of(self.transitions, limit)
    }
}
