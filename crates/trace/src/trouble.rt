use selection::refusal::Refusal;
use std::alloc::AllocError;
use std::io;
use thiserror::Error;

const USAGE: &str =
    "usage: trace [MAKE] [K Q x], or trace [MAKE] single WORD [MODE]; trace help says more";

/// Why a call of the program ends without its work done.
#[derive(Debug, Drop, Error)]
pub(crate) enum Trouble {
    #[error("{USAGE}")]
    Usage,
    #[error("{0} is not the word of a single in hexadecimal; {USAGE}")]
    NoWord(String),
    #[error("{0} is not a number below 2^32; {USAGE}")]
    NoNumber(String),
    #[error("refused by {}: {}", .0.number(), .0)]
    Refused(#[from] Refusal),
    #[error(transparent)]
    Memory(#[from(alloc)] AllocError),
    #[error(transparent)]
    Failed(#[from] io::Error),
}
