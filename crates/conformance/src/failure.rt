// What stops the comparison before its end.
use refusal::Refusal;
use std::alloc::{AllocError, AllocFailed};
use std::io;
use thiserror::Error;

#[derive(Debug, Drop, Error)]
pub enum Failure {
    #[error("no memory is left")]
    NoMemory,
    // A state that cannot be built: a stack of more than 255 bytes, or settings or a board that were refused.
    #[error("a stack is too deep")]
    TooDeep,
    #[error("{0}")]
    Setup(#[from] Refusal),
    #[error(transparent)]
    Output(#[from] io::Error),
}

// By hand, this and the next, as a derive would keep the error, and the program, which ends by showing this, would show that
// too.
impl From<AllocError> for Failure {
    fn from(_error: AllocError) -> Failure {
        Failure::NoMemory
    }
}

impl<T: Drop> From<AllocFailed<T>> for Failure {
    fn from(_refused: AllocFailed<T>) -> Failure {
        Failure::NoMemory
    }
}
