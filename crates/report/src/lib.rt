// What the bench program prints for a line and at the end of its input, written into a buffer that the caller lends.
#![tactic(auto)]

ghost use Rattle.std.specs.Prelude.{◌≡◌, [], ◌++◌, ◌∷◌, ◌+◌, ◌<◌, ◌≤◌, length};
ghost use Rattle.lists.specs.Decimal.{decimal, digit};
ghost use Rattle.report.specs.Printing.{Printed, Put, TextRoom, answer_bytes, field_bytes, line_bytes};
ghost use Rattle.report.specs.Report.{answer_text, end_text, field, line_text, outcome_text};

use calls::Answer;
use text::Malformed;

// The bytes of the buffer. The longest line has 72.
pub const LINE_BYTES: usize = 80;

const SPACE: u8 = b' ';

const NEWLINE: u8 = b'\n';

// The functions that put a text take the place where it goes, keep the bytes before, and return where it ends.
fn put_byte(out: &mut [u8; LINE_BYTES], at: usize, byte: u8) -> usize
    requires { TextRoom out.old at 1 }
    ensures { Put out.old out.new at (byte ∷ []) result }
{
    out[at] = byte;
    at + 1
}

// Puts a text into a buffer of any size.
pub fn put_word(out: &mut [u8], at: usize, word: &[u8]) -> usize
    requires { at + length word.now ≤ length out.old }
    ensures { Put out.old out.new at word.now result }
{
    let end = at + word.len();
    out[at..end].copy_from_slice(word);
    end
}

// The byte of a decimal digit.
fn digit(n: u64) -> u8
    requires { n < 10 }
    ensures { result ≡ digit n }
{
    b'0' + n as u8
}

// Puts a number in decimal: all digits but the last, then the last.
fn put_number(out: &mut [u8; LINE_BYTES], at: usize, n: u64) -> usize
    requires { TextRoom out.old at (length (decimal n)) }
    ensures { Put out.old out.new at (decimal n) result }
{
    if n < 10 {
        return put_byte(out, at, digit(n));
    }
    let last = put_number(out, at, n / 10);
    put_byte(out, last, digit(n % 10))
}

// Puts a space and a number.
fn put_field(out: &mut [u8; LINE_BYTES], at: usize, n: u64) -> usize
    requires { TextRoom out.old at field_bytes }
    ensures text { Put out.old out.new at (field n) result }
    ensures within { result ≤ at + field_bytes }
{
    let number = put_byte(out, at, SPACE);
    put_number(out, number, n)
}

// Puts two numbers, each after a space.
fn put_counts(out: &mut [u8; LINE_BYTES], at: usize, states: u16, transitions: u16) -> usize
    requires { TextRoom out.old at (field_bytes + field_bytes) }
    ensures text { Put out.old out.new at (field states ++ field transitions) result }
    ensures within { result ≤ at + (field_bytes + field_bytes) }
{
    let second = put_field(out, at, states as u64);
    put_field(out, second, transitions as u64)
}

// Puts the word of an answer and its numbers.
fn put_answer(out: &mut [u8; LINE_BYTES], at: usize, answer: Answer) -> usize
    requires { TextRoom out.old at answer_bytes }
    ensures text { Put out.old out.new at (answer_text answer) result }
    ensures within { result ≤ at + answer_bytes }
{
    match answer {
        Answer::Approved => put_word(out, at, b"approved"),
        Answer::NotPart => put_word(out, at, b"not part"),
        Answer::NotAt { place } => {
            let first = put_word(out, at, b"not");
            put_field(out, first, place as u64)
        }
        Answer::Accepted {
            states,
            transitions,
        } => {
            let first = put_word(out, at, b"accepted");
            put_counts(out, first, states, transitions)
        }
        Answer::Done {
            states,
            transitions,
        } => {
            let first = put_word(out, at, b"done");
            put_counts(out, first, states, transitions)
        }
        Answer::Total { number } => {
            let first = put_word(out, at, b"total");
            put_field(out, first, number)
        }
        Answer::Over => put_word(out, at, b"total over"),
        Answer::Serial { number } => {
            let first = put_word(out, at, b"number");
            put_field(out, first, number)
        }
        Answer::Finished => put_word(out, at, b"done"),
        Answer::Refused { number } => {
            let first = put_word(out, at, b"refused");
            put_field(out, first, number as u64)
        }
    }
}

// Puts what came of a line: the answer of the call that it made, or why it made none.
fn put_outcome(out: &mut [u8; LINE_BYTES], at: usize, outcome: Result<Answer, Malformed>) -> usize
    requires { TextRoom out.old at answer_bytes }
    ensures text { Put out.old out.new at (outcome_text outcome) result }
    ensures within { result ≤ at + answer_bytes }
{
    match outcome {
        Ok(answer) => put_answer(out, at, answer),
        Err(why) => match why {
            Malformed::Form { column } => {
                let first = put_word(out, at, b"form");
                put_field(out, first, column as u64)
            }
            Malformed::Long => put_word(out, at, b"long"),
        },
    }
}

// Writes what is printed for the line with this number, from the first byte of the buffer on, and returns its length.
pub fn line(number: u64, outcome: Result<Answer, Malformed>, out: &mut [u8; LINE_BYTES]) -> usize
    requires { length out.old ≡ line_bytes }
    ensures { Printed out.new (line_text number outcome) result }
{
    let space = put_number(out, 0, number);
    let word = put_byte(out, space, SPACE);
    let last = put_outcome(out, word, outcome);
    put_byte(out, last, NEWLINE)
}

// Writes what is printed last, from the first byte of the buffer on, and returns its length.
pub fn end(lines: u64, states: u64, transitions: u64, out: &mut [u8; LINE_BYTES]) -> usize
    requires { length out.old ≡ line_bytes }
    ensures { Printed out.new (end_text lines states transitions) result }
{
    let first = put_word(out, 0, b"end");
    let second = put_field(out, first, lines);
    let third = put_field(out, second, states);
    let last = put_field(out, third, transitions);
    put_byte(out, last, NEWLINE)
}
