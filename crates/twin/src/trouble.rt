use records::fault::Fault;
use std::io;
use thiserror::Error;

/// Why the input is not run, or its answers are not written.
#[derive(Debug, Drop, Error)]
pub(crate) enum Trouble {
    #[error(transparent)]
    NotRun(#[from] Fault),
    #[error(transparent)]
    Failed(#[from] io::Error),
}
