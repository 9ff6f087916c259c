// The arrays that a change works in.
use format::MAX_TRANSITIONS;

// The length of small arrays. Most changes need no more, and clearing a longer array takes time.
pub const SMALL: usize = 64;

// The length of large arrays, enough for every table.
pub const LARGE: usize = MAX_TRANSITIONS;

// The transitions between names as two numbers each, room for sorting them and for a heap, links between them, and how
// many are made after each transition of the table.
#[derive(Drop)]
pub struct Arrays<const N: usize> {
    pub heads: [u64; N],
    pub args: [u64; N],
    pub room: [u64; N],
    pub spare: [u64; N],
    pub next: [u16; N],
    pub ends: [u16; N],
}

impl<const N: usize> Arrays<N> {
    pub fn new() -> Self {
        Arrays {
            heads: [0; N],
            args: [0; N],
            room: [0; N],
            spare: [0; N],
            next: [0; N],
            ends: [0; N],
        }
    }
}
