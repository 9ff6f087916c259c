// What a call answers. specs/Calls says which answer a call gives, for any bytes.

#![tactic(auto)]

ghost use Rattle.std.specs.Prelude.{◌≡◌};
ghost use Rattle.calls.specs.declared.Answer.TheVariants.{Refused};
ghost use Rattle.format.specs.Refusals.{refusal_number};

use format::Refusal;

// Ask: approved; not approved, but part of an approved tree; or not approved, with the place of the node that stops
// the tree, counted in nodes of the listing from 1. Intake and the changes: accepted or done, with the numbers of
// states and of transitions. The total: the number of trees, or that it does not fit 64 bits. Tree to number: the serial
// number, or what ask answers. Number to tree: finished, which is done without numbers. Each of them: the number of a
// refusal.
#[derive(Clone, Copy)]
pub enum Answer {
    Approved,
    NotPart,
    NotAt { place: u8 },
    Accepted { states: u16, transitions: u16 },
    Done { states: u16, transitions: u16 },
    Total { number: u64 },
    Over,
    Serial { number: u64 },
    Finished,
    Refused { number: u8 },
}

impl From<Refusal> for Answer {
    fn from(refusal: Refusal) -> Self
        ensures { result ≡ Refused (refusal_number refusal) }
    {
        Answer::Refused {
            number: u8::from(refusal),
        }
    }
}
