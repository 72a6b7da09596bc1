use crate::registers::Outcome;
use crate::running::Running;

/// A fixed-point job: settled when it began, or worked off digit by digit.
#[derive(Clone, Copy, Drop, PartialEq, Eq, Debug)]
pub enum Job {
    Settled(Outcome),
    Running(Running),
}
