// One line of the bench program: read, its tree handed to the call, and the answer printed into a lent buffer. No line
// and no table is refused here: any bytes of any length have a text.
#![tactic(auto)]

ghost use Rattle.std.specs.Prelude.{◌≡◌, length};
ghost use Rattle.report.specs.Printing.{Printed, line_bytes};
ghost use Rattle.text.specs.Reader.{read_line};
ghost use Rattle.serving.specs.Answering.{Serves, handling};
ghost use Rattle.serving.specs.Serving.{closing, handled};

use calls::Answer;
use format::LISTING_BYTES;
use report::LINE_BYTES;
use text::{Command, Malformed, read_line};

// Reads a line and makes the call that it asks for.
fn handle(line: &[u8], table: &mut [u8], scratch: &mut [u8]) -> Result<Answer, Malformed>
    ensures { handling result table.new scratch.new ≡
        handled (read_line line.now) table.old scratch.old }
{
    let mut listing = [0u8; LISTING_BYTES];
    let command = read_line(line, &mut listing)?;
    Ok(match command {
        Command::Add { len } => answering::add(&listing[0..len], table, scratch),
        Command::Drop { len } => answering::remove(&listing[0..len], table, scratch),
        Command::Ask { len } => answering::ask(&listing[0..len], table),
        Command::Total => answering::total(table),
    })
}

// Carries out a line and writes what is printed for it, from the first byte of the buffer on; returns its length.
pub fn serve(
    line: &[u8],
    number: u64,
    table: &mut [u8],
    scratch: &mut [u8],
    out: &mut [u8; LINE_BYTES],
) -> usize
    requires { length out.old ≡ line_bytes }
    ensures { Serves number line.now table.old scratch.old
        out.new result table.new scratch.new }
{
    let outcome = handle(line, table, scratch);
    report::line(number, outcome, out)
}

// Writes what is printed last, from the first byte of the buffer on, and returns its length.
pub fn finish(lines: u64, table: &[u8], out: &mut [u8; LINE_BYTES]) -> usize
    requires { length out.old ≡ line_bytes }
    ensures { Printed out.new (closing lines table.now) result }
{
    match answering::take_in(table) {
        Answer::Accepted {
            states,
            transitions,
        } => report::end(lines, states as u64, transitions as u64, out),
        _ => report::end(lines, 0, 0, out),
    }
}
