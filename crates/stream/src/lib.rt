// Vector streams: records in, answers out, worked off on a bank.
#![tactic(auto)]

mod answer;
pub mod run;
mod told;
mod turn;
mod writer;
