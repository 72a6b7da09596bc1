// What the libraries for C share: tasks, the makes that are offered, why a call is refused, and how an answer is packed into one number.
#![tactic(auto)]

pub mod fault;
pub mod offered;
pub mod packed;
pub mod task;
