// Why a line gets no other answer.
use access::Refusal;
use std::alloc::{AllocError, AllocFailed};

#[derive(Clone, Copy)]
pub enum Failure {
    // it is no command
    NoCommand,
    Refused(Refusal),
    NoMemory(AllocError),
}

impl From<Refusal> for Failure {
    fn from(refusal: Refusal) -> Failure {
        Failure::Refused(refusal)
    }
}

impl From<AllocError> for Failure {
    fn from(error: AllocError) -> Failure {
        Failure::NoMemory(error)
    }
}

impl<T: Drop> From<AllocFailed<T>> for Failure {
    fn from(failed: AllocFailed<T>) -> Failure {
        Failure::NoMemory(AllocError::from(failed))
    }
}
