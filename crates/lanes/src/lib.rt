// Eight lanes with their clock and their next serial: who holds each, to which deadline and with which job.
#![tactic(auto)]

pub mod lanes;
mod letting;
