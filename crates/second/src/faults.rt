// What can stop the program.
use sheets::refusals::Refusal;
use std::alloc::AllocError;
use thiserror::Error;

#[derive(Debug, Drop, Error)]
pub enum Fault {
    #[error("out of memory")]
    NoMemory(#[from] AllocError),
    #[error(transparent)]
    Refused(#[from] Refusal),
}
