// The bench program as a console, without its input and output: the input's bytes come in parts of any length, and what
// is printed goes to a buffer that the caller writes out. A console's numbers go by value, and its buffers are lent.
#![tactic(auto)]

ghost use Rattle.std.specs.Prelude.{◌≡◌, ◌+◌, ◌<◌, ◌≤◌, length};
ghost use Rattle.console.specs.Buffers.{ClosedTo, FedTo, LineKept, Moved, Buffered, ProgressRoom, empty_scratch};
ghost use Rattle.console.specs.Buffers.{empty_table};
ghost use Rattle.console.specs.Buffers.{console};
ghost use Rattle.console.specs.Console.{held_bytes, input_ended, line_ended, stepped};

use format::{MAX_LINE, SCRATCH_BYTES, TABLE_BYTES};
use report::{LINE_BYTES, put_word};

// The bytes that are held of a line: one more than a line may have, so that a longer one is known by its length.
pub const HELD_BYTES: usize = MAX_LINE + 1;

// The bytes of the buffer for what is printed.
pub const OUT_BYTES: usize = 65536;

const NEWLINE: u8 = b'\n';

// The bytes held of the line that has not ended, the lines before it, and the bytes printed and not written yet.
#[derive(Clone, Copy)]
pub struct Progress {
    pub held: usize,
    pub lines: u64,
    pub printed: usize,
}

// How many bytes of a part of the input were taken.
#[derive(Clone, Copy)]
pub struct Fed {
    pub taken: usize,
    pub progress: Progress,
}

// The table of the empty set.
pub fn empty_table() -> [u8; TABLE_BYTES]
    ensures { result ≡ empty_table }
{
    [0u8; TABLE_BYTES]
}

pub fn empty_scratch() -> [u8; SCRATCH_BYTES]
    ensures { result ≡ empty_scratch }
{
    [0u8; SCRATCH_BYTES]
}

// Keeps a byte of a line, if it is among those that are held; returns how many are.
fn keep(line: &mut [u8; HELD_BYTES], held: usize, byte: u8) -> usize
    requires line_len { length line.old ≡ held_bytes }
    requires held_le_held_bytes { held ≤ held_bytes }
    ensures { LineKept line.old held byte line.new result }
{
    if held >= HELD_BYTES {
        return held;
    }
    line[held] = byte;
    held + 1
}

// Ends a line: serves it and puts its text after what is printed.
fn end_line(
    p: Progress,
    line: &[u8],
    table: &mut [u8],
    scratch: &mut [u8],
    out: &mut [u8; OUT_BYTES],
) -> Progress
    requires buffered { Buffered p line.now out.old }
    requires progress_room { ProgressRoom p 1 1 }
    ensures { Moved p (line_ended (console p line.now table.old scratch.old
        out.old)) result line.now table.new scratch.new out.new }
{
    let held = p.held;
    let number = p.lines + 1;
    let mut text = [0u8; LINE_BYTES];
    let len = serving::serve(&line[..held], number, table, scratch, &mut text);
    let printed = put_word(out, p.printed, &text[..len]);
    Progress {
        held: 0,
        lines: number,
        printed,
    }
}

// Takes one byte of the input.
fn step(
    p: Progress,
    byte: u8,
    line: &mut [u8; HELD_BYTES],
    table: &mut [u8],
    scratch: &mut [u8],
    out: &mut [u8; OUT_BYTES],
) -> Progress
    requires buffered { Buffered p line.old out.old }
    requires progress_room { ProgressRoom p 1 1 }
    ensures { Moved p (stepped (console p line.old table.old scratch.old
        out.old) byte) result line.new table.new scratch.new out.new }
{
    if byte == NEWLINE {
        return end_line(p, line, table, scratch, out);
    }
    let held = keep(line, p.held, byte);
    Progress { held, ..p }
}

// Takes a part of the input, as far as there is room for what is printed.
pub fn feed(
    p: Progress,
    input: &[u8],
    line: &mut [u8; HELD_BYTES],
    table: &mut [u8],
    scratch: &mut [u8],
    out: &mut [u8; OUT_BYTES],
) -> Fed
    requires buffered { Buffered p line.old out.old }
    requires progress_room { ProgressRoom p (length input.now) 1 }
    ensures { FedTo p (console p line.old table.old scratch.old
        out.old) input.now result line.new table.new scratch.new
        out.new }
{
    let mut q = p;
    for i in 0..input.len() {
        if q.printed + LINE_BYTES > OUT_BYTES {
            return Fed {
                taken: i,
                progress: q,
            };
        }
        q = step(q, input[i], line, table, scratch, out);
    }
    Fed {
        taken: input.len(),
        progress: q,
    }
}

// Ends the line that the end of the input ends, if there is one.
fn end_input(
    p: Progress,
    line: &[u8],
    table: &mut [u8],
    scratch: &mut [u8],
    out: &mut [u8; OUT_BYTES],
) -> Progress
    requires buffered { Buffered p line.now out.old }
    requires progress_room { ProgressRoom p 1 2 }
    ensures { Moved p (input_ended (console p line.now table.old scratch.old
        out.old)) result line.now table.new scratch.new out.new }
{
    if p.held == 0 {
        return p;
    }
    end_line(p, line, table, scratch, out)
}

// Ends the input, and returns how many bytes are printed then.
pub fn close(
    p: Progress,
    line: &[u8],
    table: &mut [u8],
    scratch: &mut [u8],
    out: &mut [u8; OUT_BYTES],
) -> usize
    requires buffered { Buffered p line.now out.old }
    requires progress_room { ProgressRoom p 1 2 }
    ensures { ClosedTo (console p line.now table.old scratch.old
        out.old) result out.new }
{
    let q = end_input(p, line, table, scratch, out);
    let mut text = [0u8; LINE_BYTES];
    let len = serving::finish(q.lines, table, &mut text);
    put_word(out, q.printed, &text[..len])
}
