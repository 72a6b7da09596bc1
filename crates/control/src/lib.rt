// The control: the mode in which results are collected, the marks they raised, and modes for a while.
#![tactic(auto)]

pub mod collecting;
pub mod control;
mod setting;
pub mod span;
