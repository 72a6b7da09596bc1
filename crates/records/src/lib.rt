// The records of a vector stream, and a reader that hands them out.
#![tactic(auto)]

mod bytes;
pub mod defect;
pub mod fault;
mod kind;
mod next;
pub mod reader;
pub mod record;
