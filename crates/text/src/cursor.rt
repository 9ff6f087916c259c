// A text cursor: a place in a line, from 0, and the column of the byte there, from 1. The work is in a function by
// value; one thin step takes the cursor by `&mut`.
ghost use Rattle.std.specs.Prelude.{◌≡◌, max};
ghost use Rattle.text.specs.Columns.{advanced, line_start};

#[derive(Clone, Copy)]
pub struct Cursor {
    pub place: usize,
    pub column: usize,
}

impl Cursor {
    // The cursor at the start of a line.
    pub fn start() -> Cursor
        ensures { result ≡ line_start }
    {
        Cursor {
            place: 0,
            column: 1,
        }
    }

    // The cursor n bytes further on.
    fn moved(self, n: usize) -> Cursor
        ensures { result ≡ advanced self n }
    {
        Cursor {
            place: self.place.wrapping_add(n),
            column: self.column.wrapping_add(n),
        }
    }

    // The thin step.
    fn step(&mut self, n: usize)
        ensures { self.new ≡ advanced self.old n }
    {
        *self = self.moved(n);
    }

    // The step for the readers, which hold the cursor by value: its contract says nothing of a reference.
    pub fn stepped(mut self, n: usize) -> Cursor
        ensures { result ≡ advanced self n }
    {
        self.step(n);
        self
    }

    // Of two cursors the one in the larger column.
    pub fn further(self, other: Cursor) -> Cursor
        ensures { result.column ≡ max self.column other.column }
    {
        if self.column < other.column {
            return other;
        }
        self
    }
}
