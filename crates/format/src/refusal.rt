// What a call refuses (01, refusals 1 to 20), by the condition that is broken, and its number.
#![tactic(auto)]

ghost use Rattle.std.specs.Prelude.{◌≡◌};
ghost use Rattle.format.specs.Refusals.{refusal_number};

#[derive(Clone, Copy, PartialEq, Eq)]
pub enum Refusal {
    ListingLength = 1,
    ZeroLabel = 2,
    TooManyChildren = 3,
    NotOneTree = 4,
    TableLength = 5,
    LentLength = 6,
    Layout = 7,
    Order = 8,
    InaccessibleState = 9,
    UnusedState = 10,
    Loop = 11,
    EquivalentStates = 12,
    Numbering = 13,
    TreeInSet = 14,
    TreeNotInSet = 15,
    LargeProduct = 16,
    TableFull = 17,
    TotalOver = 18,
    LargeNumber = 19,
    LargeTree = 20,
}

impl From<Refusal> for u8 {
    fn from(refusal: Refusal) -> Self
        ensures { result ≡ refusal_number refusal }
    {
        refusal as u8
    }
}
