// The numbers that a C host gets for an answer.
ghost use Rattle.std.specs.Prelude.{◌≡◌};
ghost use Rattle.calls.specs.Answers.{answer_number, counts_number, number_after};

use calls::Answer;

// Two numbers in one.
fn counts(states: u16, transitions: u16) -> u64
    ensures { result ≡ counts_number states transitions }
{
    65536 * u64::from(states) + 4294967296 * u64::from(transitions)
}

// The number that stands for an answer.
pub fn answer_number(answer: Answer) -> u64
    ensures { result ≡ answer_number answer }
{
    match answer {
        Answer::Approved => 256,
        Answer::NotPart => 512,
        Answer::NotAt { place } => 65536 * u64::from(place),
        Answer::Accepted {
            states,
            transitions,
        } => counts(states, transitions),
        Answer::Done {
            states,
            transitions,
        } => counts(states, transitions),
        Answer::Total { .. } => 0,
        Answer::Over => 256,
        Answer::Serial { .. } => 256,
        Answer::Finished => 0,
        Answer::Refused { number } => u64::from(number),
    }
}

// The number that a host has after an answer: the total, the tree's number, or what was there.
pub fn number_after(answer: Answer, old: u64) -> u64
    ensures { result ≡ number_after answer old }
{
    match answer {
        Answer::Total { number } => number,
        Answer::Serial { number } => number,
        _ => old,
    }
}
