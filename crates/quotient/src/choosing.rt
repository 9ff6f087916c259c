// All choices of kept names for the arguments of a transition, one place after another.
ghost use Rattle.std.specs.Prelude.{◌*◌, ◌+◌, ◌<◌, ◌^◌, ◌≤◌, length};
ghost use Rattle.fields.specs.Fields.{Readable};
ghost use Rattle.table.specs.Layout.{arity_of};
ghost use Rattle.quotient.specs.Choosing.{ChoicesOf};
ghost use Rattle.quotient.specs.Entries.{AppendedTo, RoomFor, SameArrays};
ghost use Rattle.quotient.specs.Named.{choices_at, choices_from};

use crate::entries::Entries;
use crate::finishing::{Choice, finish};
use crate::kept::index;
use crate::named::Names;
use fields::{arg_of, arity_of};

// Appends the entries of all choices for the places from k on, after the names chosen for those before it.
fn choose(
    transitions: &[u8],
    at: usize,
    k: usize,
    names: &Names<'_>,
    choice: Choice,
    entries: &mut Entries<'_>,
)
    requires readable { Readable transitions.now at }
    requires k_bound { k ≤ arity_of transitions.now at }
    requires prefix_bound { choice.prefix < 2 ^ (8 * k) }
    requires room { RoomFor entries.old (length (choices_from names.now transitions.now at k choice.own
        choice.prefix)) }
    ensures same_arrays { SameArrays entries.old entries.new }
    ensures appended { AppendedTo entries.old (choices_from names.now transitions.now at k choice.own choice.prefix)
        entries.new }
{
    let arity = arity_of(transitions, at);
    if k == arity {
        finish(transitions, at, names, choice, entries);
        return;
    }
    let mut x = index(names.kept.firsts[arg_of(transitions, at, k)]);
    while x != 0 {
        let longer = Choice {
            own: choice.own & (names.named.n < x),
            prefix: 256 * choice.prefix + x as u64,
        };
        // the last place does without one more call for each name
        if k + 1 == arity {
            finish(transitions, at, names, longer, entries);
        } else {
            choose(transitions, at, k + 1, names, longer, entries);
        }
        x = index(names.kept.nexts[x]);
    }
}

// How many choices of names there are for the arguments of a transition. `None`: some argument has no name. `One`:
// each has one. `Several`: each has a name, and some have more.
#[derive(Clone, Copy)]
enum Choices {
    None,
    One(Choice),
    Several,
}

// The choices for the transition that starts at a byte.
fn choices_of(transitions: &[u8], at: usize, names: &Names<'_>) -> Choices
    requires { Readable transitions.now at }
    ensures { ChoicesOf names.now transitions.now at result }
{
    let arity = arity_of(transitions, at);
    let mut none = false;
    let mut only = true;
    let mut own = true;
    let mut prefix = 0u64;
    for k in 0..arity {
        let x = index(names.kept.firsts[arg_of(transitions, at, k)]);
        none = none | (x == 0);
        only = only & (names.kept.nexts[x] == 0);
        own = own & (names.named.n < x);
        prefix = 256 * prefix + x as u64;
    }
    if none {
        return Choices::None;
    }
    if only {
        return Choices::One(Choice { own, prefix });
    }
    Choices::Several
}

// Appends the entries of all choices. Most transitions have one choice or none, and these do without the recursion.
// If an argument has no name, the recursion would go through all choices for the places before it.
pub fn choose_names(transitions: &[u8], at: usize, names: &Names<'_>, entries: &mut Entries<'_>)
    requires readable { Readable transitions.now at }
    requires room { RoomFor entries.old (length (choices_at names.now transitions.now at)) }
    ensures same_arrays { SameArrays entries.old entries.new }
    ensures appended { AppendedTo entries.old (choices_at names.now transitions.now at) entries.new }
{
    match choices_of(transitions, at, names) {
        Choices::None => {}
        Choices::One(choice) => finish(transitions, at, names, choice, entries),
        Choices::Several => {
            let start = Choice {
                own: true,
                prefix: 0,
            };
            choose(transitions, at, 0, names, start, entries)
        }
    }
}
