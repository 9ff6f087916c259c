// The entry of a transition for one choice of names for its arguments.
ghost use Rattle.std.specs.Prelude.{◌*◌, ◌+◌, ◌<◌, ◌^◌, length};
ghost use Rattle.fields.specs.Fields.{Readable};
ghost use Rattle.table.specs.Layout.{arity_of};
ghost use Rattle.quotient.specs.Entries.{AppendedTo, RoomFor, SameArrays};
ghost use Rattle.quotient.specs.Named.{finished_in};

use crate::entries::Entries;
use crate::named::Names;
use crate::nodes::node_name;
use fields::{arity_of, out_of};
use packed::{meta_at, padded};

// Names chosen for the arguments before some place: the digits of one number to base 256, the first the highest, and
// whether all of them are own names of subtrees.
#[derive(Clone, Copy)]
pub struct Choice {
    pub own: bool,
    pub prefix: u64,
}

// Appends the entry of the transition that starts at a byte for a choice of names. If all of them are own names and
// they make a subtree, the output is the name of that subtree.
pub fn finish(
    transitions: &[u8],
    at: usize,
    names: &Names<'_>,
    choice: Choice,
    entries: &mut Entries<'_>,
)
    requires readable { Readable transitions.now at }
    requires prefix_bound { choice.prefix < 2 ^ (8 * arity_of transitions.now at) }
    requires room { RoomFor entries.old (length (finished_in names.now transitions.now at choice.own
        choice.prefix)) }
    ensures same_arrays { SameArrays entries.old entries.new }
    ensures appended { AppendedTo entries.old (finished_in names.now transitions.now at choice.own choice.prefix)
        entries.new }
{
    let meta = meta_at(transitions, at);
    let key = padded(choice.prefix, arity_of(transitions, at));
    let out = out_of(transitions, at) as u8;
    let name = if choice.own {
        node_name(names, meta, key, out)
    } else {
        out
    };
    entries.emit(meta, key, name);
}
