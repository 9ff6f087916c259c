// What goes to standard output. The fields of a `Written` are private, so no other file can count a text as written:
// a console goes on only with what a function of this file returns after it handed the text to the write.
ghost use Rattle.std.specs.Prelude.{◌≡◌, ◌≤◌, length, take};
ghost use Rattle.console.specs.Buffers.{Buffered, ProgressRoom, console};
ghost use Rattle.bench.specs.Output.{Finished, Flushed, HandedAll, Idle, Took, begun};

use console::{HELD_BYTES, OUT_BYTES, Progress, close, feed};
use std::io::{Error, Stderr, Stdin, Stdout, Write};

// The three streams of the program.
#[derive(Clone, Copy)]
pub struct Streams {
    pub input: Stdin,
    pub output: Stdout,
    pub errors: Stderr,
}

// The numbers of a console of which nothing waits to be written.
#[derive(Clone, Copy)]
pub struct Written {
    progress: Progress,
}

// Before the first byte of the input.
pub fn begin() -> Written
    ensures { result.progress ≡ begun }
{
    Written {
        progress: Progress {
            held: 0,
            lines: 0,
            printed: 0,
        },
    }
}

// Tells on standard error what failed, and why.
pub fn fail(streams: Streams, what: &str, why: &Error) {
    let mut errors = streams.errors;
    match writeln!(errors, "{what}: {why}") {
        Ok(()) | Err(_) => {}
    }
}

// Hands a text to standard output and returns how many bytes it has. It takes `out` so that the contract can say that
// the text is its start.
fn hand_over(streams: Streams, text: &[u8], out: &[u8]) -> Result<usize, Error>
    requires { text.now ≡ take (length text.now) out.now }
    ensures { HandedAll (length text.now) result }
{
    let mut output = streams.output;
    output.write_all(text)?;
    Ok(text.len())
}

// Hands over what is printed. What was handed over no longer waits.
fn flush(streams: Streams, p: Progress, out: &[u8]) -> Result<Written, Error>
    requires { p.printed ≤ length out.now }
    ensures { Flushed p result }
{
    let handed = hand_over(streams, &out[..p.printed], out)?;
    Ok(Written {
        progress: Progress {
            printed: p.printed - handed,
            ..p
        },
    })
}

// Takes a part of the input and writes what is printed for it.
pub fn take(
    streams: Streams,
    w: Written,
    input: &[u8],
    line: &mut [u8; HELD_BYTES],
    table: &mut [u8],
    scratch: &mut [u8],
    out: &mut [u8; OUT_BYTES],
) -> Result<Written, Error>
    requires buffered { Buffered w.progress line.old out.old }
    requires idle { Idle w.progress (length input.now) }
    ensures { Took w.progress (console w.progress line.old table.old
        scratch.old out.old) input.now result line.new table.new
        scratch.new out.new }
{
    let mut q = w;
    let mut at = 0;
    while at < input.len() {
        let fed = feed(q.progress, &input[at..], line, table, scratch, out);
        q = flush(streams, fed.progress, out)?;
        at += fed.taken;
    }
    Ok(q)
}

// Ends the input and writes what is printed then.
pub fn finish(
    streams: Streams,
    w: Written,
    line: &[u8],
    table: &mut [u8],
    scratch: &mut [u8],
    out: &mut [u8; OUT_BYTES],
) -> Result<usize, Error>
    requires buffered { Buffered w.progress line.now out.old }
    requires progress_room { ProgressRoom w.progress 1 2 }
    ensures { Finished (console w.progress line.now table.old scratch.old
        out.old) out.new result }
{
    let printed = close(w.progress, line, table, scratch, out);
    let all = &out[..];
    hand_over(streams, &all[..printed], all)
}
