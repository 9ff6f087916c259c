// No code: definitions and laws.
#![tactic(auto)]
