// The bench program: reads standard input, and prints what came of each line and, last, the numbers of the table.
// What is printed is written when its buffer is full and before each read, so someone typing sees each answer.
#![tactic(auto)]

mod output;

ghost use Rattle.std.specs.Prelude.{◌≡◌, length};
ghost use Rattle.console.specs.Buffers.{Buffered, empty_scratch, empty_table, out_bytes, console};
ghost use Rattle.console.specs.Console.{held_bytes};
ghost use Rattle.bench.specs.Output.{Idle};
ghost use Rattle.bench.specs.Turns.{MetAll, Moved, ReadTurn, Turned, brought, chunk_bytes};

use console::{HELD_BYTES, OUT_BYTES, empty_scratch, empty_table};
use output::{Streams, Written, begin, fail, finish, take};
use std::io::{Error, Read};
use std::ops::ControlFlow;

// A proved loop has to end, and nothing says that an input does. So many reads of 65,536 bytes are more than a run
// makes, and the lines of fewer than 2^64 bytes can be counted.
const READS: u64 = 281474976710655;

// One read of standard input: the number of bytes that it brought. A failure is reported on standard error, and brings
// none.
fn read_chunk(streams: Streams, chunk: &mut [u8]) -> usize
    ensures { Moved (length chunk.old) result }
{
    let mut input = streams.input;
    match input.read(chunk) {
        Ok(got) => got,
        Err(why) => {
            fail(streams, "read", &why);
            0
        }
    }
}

// Takes what a read left in the chunk: `got` is what the read returned, and counts up to the chunk's length. A read
// that brought nothing or failed ends the input.
fn take_chunk(
    streams: Streams,
    w: Written,
    got: usize,
    chunk: &[u8],
    line: &mut [u8; HELD_BYTES],
    table: &mut [u8],
    scratch: &mut [u8],
    out: &mut [u8; OUT_BYTES],
) -> Result<ControlFlow<Written, Written>, Error>
    requires buffered { Buffered w.progress line.old out.old }
    requires idle { Idle w.progress (length chunk.now) }
    ensures { Turned w.progress (console w.progress line.old table.old
        scratch.old out.old) (brought got chunk.now) result line.new
        table.new scratch.new out.new }
{
    let got = got.min(chunk.len());
    if got == 0 {
        return Ok(ControlFlow::Break(w));
    }
    let next = take(streams, w, &chunk[..got], line, table, scratch, out)?;
    Ok(ControlFlow::Continue(next))
}

// Reads a part of the input and takes it.
fn read_some(
    streams: Streams,
    w: Written,
    chunk: &mut [u8],
    line: &mut [u8; HELD_BYTES],
    table: &mut [u8],
    scratch: &mut [u8],
    out: &mut [u8; OUT_BYTES],
) -> Result<ControlFlow<Written, Written>, Error>
    requires buffered { Buffered w.progress line.old out.old }
    requires idle { Idle w.progress chunk_bytes }
    requires chunk_len { length chunk.old ≡ chunk_bytes }
    ensures { ReadTurn w.progress (console w.progress line.old table.old
        scratch.old out.old) chunk.new result line.new table.new
        scratch.new out.new }
{
    let got = read_chunk(streams, chunk);
    take_chunk(streams, w, got, chunk, line, table, scratch, out)
}

// Reads until the input ends.
fn read_all(
    streams: Streams,
    chunk: &mut [u8],
    line: &mut [u8; HELD_BYTES],
    table: &mut [u8],
    scratch: &mut [u8],
    out: &mut [u8; OUT_BYTES],
) -> Result<Written, Error>
    requires chunk_len { length chunk.old ≡ chunk_bytes }
    requires line_len { length line.old ≡ held_bytes }
    requires table_value { table.old ≡ empty_table }
    requires scratch_value { scratch.old ≡ empty_scratch }
    requires out_len { length out.old ≡ out_bytes }
    ensures { MetAll result line.new table.new scratch.new out.new }
{
    let mut w = begin();
    for _done in 0..READS {
        match read_some(streams, w, chunk, line, table, scratch, out)? {
            ControlFlow::Continue(next) => w = next,
            ControlFlow::Break(last) => return Ok(last),
        }
    }
    Ok(w)
}

// The whole input. An error is that of a write, after which nothing more is printed.
fn run(streams: Streams) -> Result<usize, Error> {
    let mut table = empty_table();
    let mut scratch = empty_scratch();
    let mut line = [0u8; HELD_BYTES];
    let mut out = io::large_buffer();
    let mut chunk = io::large_buffer();
    let w = read_all(
        streams,
        &mut chunk,
        &mut line,
        &mut table,
        &mut scratch,
        &mut out,
    )?;
    finish(streams, w, &line, &mut table, &mut scratch, &mut out)
}

fn main(rt: HostRuntime) {
    let streams = Streams {
        input: rt.stdin(),
        output: rt.stdout(),
        errors: rt.stderr(),
    };
    if let Err(why) = run(streams) {
        fail(streams, "write", &why);
    }
}
