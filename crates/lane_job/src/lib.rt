// The job of a lane, fixed-point or single, and what the requests of its hold do to it.
#![tactic(auto)]

pub mod job;
pub mod serve;
mod work;
