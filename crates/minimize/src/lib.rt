// Transitions over any states, numbered by the rule and written as a table.
#![tactic(auto)]

pub mod renaming; // other names for the states
mod number; // numbers by the rule
pub mod write; // the table
