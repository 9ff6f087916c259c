// Transitions appended to two arrays, as two numbers each. The first has the output in its lowest 8 bits, the label
// in the 16 above and the child count above these. The second has the packed arguments.
ghost use Rattle.std.specs.Prelude.{[], ◌∷◌, ◌<◌, ◌^◌, length};
ghost use Rattle.quotient.specs.Entries.{AppendedTo, RoomFor, SameArrays};
ghost use Rattle.quotient.specs.Making.{entry_of};

// The first `count` entries of two arrays.
#[derive(Drop)]
pub struct Entries<'a> {
    pub heads: &'a mut [u64],
    pub args: &'a mut [u64],
    pub count: usize,
}

impl Entries<'_> {
    // Appends an entry.
    pub fn push(&mut self, head: u64, key: u64)
        requires { RoomFor self.old 1 }
        ensures same_arrays { SameArrays self.old self.new }
        ensures appended { AppendedTo self.old ((head, key) ∷ []) self.new }
    {
        self.heads[self.count] = head;
        self.args[self.count] = key;
        self.count += 1;
    }

    // Appends the entry of a transition, unless its output is 0.
    pub fn emit(&mut self, meta: u64, key: u64, out: u8)
        requires room { RoomFor self.old (length (entry_of meta key out)) }
        requires meta_bound { meta < 2 ^ 32 }
        ensures same_arrays { SameArrays self.old self.new }
        ensures appended { AppendedTo self.old (entry_of meta key out) self.new }
    {
        if out == 0 {
            return;
        }
        self.push(256 * meta + out as u64, key);
    }
}
