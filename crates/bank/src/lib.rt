// The bank: eight lanes, each let to one holder at a time.
#![tactic(auto)]

pub mod bank;
mod calls;
mod making;
mod play;

pub use protocol::{call, refusal};
