// Lines of the bench program: a line of text to a command and the listing of its tree. The readers hold a text cursor
// and step it over every byte that they accept; the column of a malformed line is what the cursor then says.
#![tactic(auto)]

ghost use Rattle.std.specs.Prelude.{◌≡◌, ◌-◌, ◌*◌, ◌≤◌, length, slice_set};
ghost use Rattle.std.proofs.lemmas.List.Edits.{sets};
ghost use Rattle.format.specs.Format.{label_written, listing_bytes, max_label, max_line, node_bytes};
ghost use Rattle.lists.specs.Decimal.{digit};
ghost use Rattle.text.specs.Clauses.{ChildrenRead, FormRead, LabelRead, LineEnd, ReaderAt, TotalRead, TreeRead};
ghost use Rattle.text.specs.Clauses.{shortest_head};
ghost use Rattle.text.specs.Columns.{OnLine};
ghost use Rattle.text.specs.Outcome.{no_listing, listed, parsed};
ghost use Rattle.text.specs.Reader.{agreed, extends, is_digit, read_line};

use cursor::Cursor;
use format::{LABEL_BYTES, LISTING_BYTES, MAX_LABEL, MAX_LINE, NODE_BYTES};

mod cursor; // cursor.rt: a place in a line and its column

const OPEN: u8 = b'(';

const CLOSE: u8 = b')';

const SPACE: u8 = b' ';

// What a line asks for, with the length of its tree's listing.
#[derive(Clone, Copy, PartialEq, Eq)]
pub enum Command {
    Add { len: usize },
    Drop { len: usize },
    Ask { len: usize },
    Total,
}

// Why a line is no command: malformed from a column on, or too long.
#[derive(Clone, Copy, PartialEq, Eq)]
pub enum Malformed {
    Form { column: usize },
    Long,
}

// A label and its number of digits.
#[derive(Clone, Copy)]
struct Label {
    value: u16,
    len: usize,
}

// Trees in a row: how many, the cursor after them and the byte after their listings. Where they are not read, there is
// the cursor at the first byte that is not allowed.
#[derive(Clone, Copy)]
struct Trees {
    count: u8,
    end: Cursor,
    filled: usize,
}

fn is_digit(b: u8) -> bool
    ensures { result ≡ is_digit b }
{
    b.is_ascii_digit()
}

// The number that a digit stands for.
fn digit_value(b: u8) -> u16
    requires { digit 0 ≤ b }
    ensures { result ≡ b - digit 0 }
{
    (b - b'0') as u16
}

// Whether a label may go on with this byte.
fn extends(value: u16, b: u8) -> bool
    ensures { result ≡ extends value b }
{
    if !is_digit(b) {
        return false;
    }
    if value == 0 {
        return false;
    }
    10 * (value as usize) + digit_value(b) as usize <= MAX_LABEL
}

// Reads the longest label that s starts with.
fn read_label(s: &[u8]) -> Option<Label>
    ensures { LabelRead s.now result }
{
    if s.is_empty() {
        return None;
    }
    if !is_digit(s[0]) {
        return None;
    }
    let mut value = digit_value(s[0]);
    for i in 1..s.len() {
        if !extends(value, s[i]) {
            return Some(Label { value, len: i });
        }
        value = 10 * value + digit_value(s[i]);
    }
    Some(Label {
        value,
        len: s.len(),
    })
}

// Stores a byte, if there is room for it.
fn put(listing: &mut [u8; LISTING_BYTES], i: usize, value: u8)
    requires { length listing.old ≡ listing_bytes }
    ensures { listing.new ≡ slice_set listing.old i value }
{
    if i < LISTING_BYTES {
        listing[i] = value;
    }
}

// Stores the label of a node whose listing starts at byte `at`.
fn put_label(listing: &mut [u8; LISTING_BYTES], at: usize, value: u16)
    requires listing_len { length listing.old ≡ listing_bytes }
    requires at_bound { at ≤ node_bytes * max_line }
    requires value_le_max_label { value ≤ max_label }
    ensures { listing.new ≡ sets listing.old at (label_written value) }
{
    let [high, low] = value.to_be_bytes();
    put(listing, at, high);
    put(listing, at + 1, low);
}

// Reads the tree at the cursor, and writes its listing from byte `at` on.
#[cycle(children_tree)]
fn tree(
    line: &[u8],
    c: Cursor,
    listing: &mut [u8; LISTING_BYTES],
    at: usize,
) -> Result<Trees, Cursor>
    requires { ReaderAt line.now c listing.old at }
    ensures { TreeRead line.now c listing.old at listing.new result }
{
    let open = c.place;
    if open >= line.len() {
        return Err(c);
    }
    if line[open] != OPEN {
        return Err(c);
    }
    let name = c.stepped(1);
    let from = name.place;
    let Some(label) = read_label(&line[from..]) else {
        return Err(name);
    };
    put_label(listing, at, label.value);
    let inside = name.stepped(label.len);
    let below = children(line, inside, listing, at + NODE_BYTES)?;
    put(listing, at + LABEL_BYTES, below.count);
    Ok(Trees { count: 1, ..below })
}

// Reads children, each after a space, and the closing bracket after them; writes their listings from byte `at` on.
#[cycle(children_tree)]
fn children(
    line: &[u8],
    c: Cursor,
    listing: &mut [u8; LISTING_BYTES],
    at: usize,
) -> Result<Trees, Cursor>
    requires { ReaderAt line.now c listing.old at }
    ensures { ChildrenRead line.now c listing.old at listing.new result }
{
    let place = c.place;
    if place >= line.len() {
        return Err(c);
    }
    if line[place] == CLOSE {
        return Ok(Trees {
            count: 0,
            end: c.stepped(1),
            filled: at,
        });
    }
    if line[place] != SPACE {
        return Err(c);
    }
    let first = tree(line, c.stepped(1), listing, at)?;
    let others = children(line, first.end, listing, first.filled)?;
    Ok(Trees {
        count: others.count + 1,
        ..others
    })
}

// The number of first bytes in which s and w agree.
fn agreeing(s: &[u8], w: &[u8]) -> usize
    ensures { result ≡ agreed s.now w.now }
{
    let len = s.len().min(w.len());
    for i in 0..len {
        if s[i] != w[i] {
            return i;
        }
    }
    len
}

fn clear(listing: &mut [u8; LISTING_BYTES])
    requires { length listing.old ≡ listing_bytes }
    ensures { listing.new ≡ no_listing }
{
    listing.fill(0);
}

// Whether a line ends as it must at the cursor after its tree: with a closing bracket.
fn close_line(line: &[u8], c: Cursor, len: usize) -> Result<usize, Cursor>
    requires { OnLine line.now c }
    ensures { LineEnd line.now c len result }
{
    let place = c.place;
    if place >= line.len() {
        return Err(c);
    }
    if line[place] != CLOSE {
        return Err(c);
    }
    let end = c.stepped(1);
    if end.place < line.len() {
        return Err(end);
    }
    Ok(len)
}

// Reads a line that is to start with `head` and a tree, and writes the tree's listing; returns its length.
fn read_form(line: &[u8], head: &[u8], listing: &mut [u8; LISTING_BYTES]) -> Result<usize, Cursor>
    requires line_len_bound { length line.now ≤ max_line }
    requires shortest_head_in_bounds { shortest_head ≤ length head.now }
    requires listing_len { length listing.old ≡ listing_bytes }
    ensures { FormRead head.now line.now listing.new result }
{
    let len = agreeing(line, head);
    let after = Cursor::start().stepped(len);
    if len < head.len() {
        return Err(after);
    }
    clear(listing);
    let read = tree(line, after, listing, 0)?;
    close_line(line, read.end, read.filled)
}

// Reads a line that is to be "(total)", which has no listing.
fn read_total(line: &[u8]) -> Result<(), Cursor>
    requires { length line.now ≤ max_line }
    ensures { TotalRead line.now result }
{
    let text = b"(total)";
    let len = agreeing(line, text);
    let end = Cursor::start().stepped(len);
    if len < text.len() {
        return Err(end);
    }
    if len < line.len() {
        return Err(end);
    }
    Ok(())
}

// Reads a line. The listing of its tree goes to `listing`, with zeros after it; all zeros if there is none.
pub fn read_line(line: &[u8], listing: &mut [u8; LISTING_BYTES]) -> Result<Command, Malformed>
    requires { length listing.old ≡ listing_bytes }
    ensures answer { result ≡ parsed (read_line line.now) }
    ensures listing { listing.new ≡ listed (read_line line.now) }
{
    if line.len() > MAX_LINE {
        clear(listing);
        return Err(Malformed::Long);
    }
    let add = match read_form(line, b"(add ", listing) {
        Ok(len) => return Ok(Command::Add { len }),
        Err(at) => at,
    };
    let drop = match read_form(line, b"(drop ", listing) {
        Ok(len) => return Ok(Command::Drop { len }),
        Err(at) => at,
    };
    let ask = match read_form(line, b"(ask ", listing) {
        Ok(len) => return Ok(Command::Ask { len }),
        Err(at) => at,
    };
    clear(listing);
    let Err(total) = read_total(line) else {
        return Ok(Command::Total);
    };
    let end = add.further(drop.further(ask.further(total)));
    Err(Malformed::Form { column: end.column })
}
