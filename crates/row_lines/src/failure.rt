use cal_base::Oom;
use script::{BadWhy, ReadLineError};
use std::alloc::AllocError;
use std::io;

/// Why the program ends before its input does.
#[derive(Debug, Drop)]
pub enum Failure {
    /// A line is none of its grammar.
    BadLine(BadWhy),
    /// The input or the output failed.
    Device(io::Error),
    OutOfMemory,
}

impl From<Oom> for Failure {
    fn from(_error: Oom) -> Failure {
        Failure::OutOfMemory
    }
}

impl From<AllocError> for Failure {
    fn from(_error: AllocError) -> Failure {
        Failure::OutOfMemory
    }
}

impl From<io::Error> for Failure {
    fn from(error: io::Error) -> Failure {
        Failure::Device(error)
    }
}

impl From<ReadLineError> for Failure {
    fn from(error: ReadLineError) -> Failure {
        match error {
            ReadLineError::Bad(why) => Failure::BadLine(why),
            ReadLineError::OutOfMemory => Failure::OutOfMemory,
        }
    }
}
