// Holds as values: only a take makes one, and a give or an accepted collect uses it up.
#![tactic(auto)]

pub mod hold;
mod holding;
