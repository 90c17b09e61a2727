// Why a line is not as recorded.
use std::alloc::AllocError;
use thiserror::Error;

#[derive(Debug, Drop, Error)]
pub enum Fault {
    #[error("the line is too long")]
    TooLong,
    #[error("no answer is recorded")]
    NoAnswer,
    #[error("no such operation")]
    NoOperation,
    #[error("an argument is malformed")]
    Malformed,
    #[error("answer: {0}")]
    Differs(String),
    #[error("memory ran out")]
    OutOfMemory(#[from(alloc)] AllocError),
}
