// The recurrence: fixed-point jobs, worked off a digit at a time by one generic turn.
#![tactic(auto)]

pub mod digit;
pub mod first;
pub mod job;
pub mod make;
pub mod registers;
pub mod running;
pub mod turn;
pub mod work;
