// The calls of a bank and their answers, and what a list of them comes to.
#![tactic(auto)]

pub mod call;
pub mod refusal;
pub mod story;
