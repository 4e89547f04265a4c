use std::alloc::AllocError;
use std::io;

/// Why the program ends with status 1.
#[derive(Debug, Drop)]
pub enum Failure {
    /// The arguments are not as the usage text says.
    Usage,
    /// A file could not be read.
    Unread,
    /// The specification or the run was refused.
    Refused,
    /// The text of the account found no memory.
    Memory,
    /// The arguments could not be taken, or the text could not be written.
    Streams,
}

impl From<AllocError> for Failure {
    fn from(_error: AllocError) -> Self {
        Failure::Memory
    }
}

impl From<io::Error> for Failure {
    fn from(_error: io::Error) -> Self {
        Failure::Streams
    }
}
