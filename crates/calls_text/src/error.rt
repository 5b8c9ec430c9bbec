// Why a row has no answer.
use std::alloc::{AllocError, AllocFailed};
use std::io;
use std::num::TryFromIntError;

#[derive(Debug, Drop)]
pub enum RowError {
    // The row cannot be read, which is what is printed for it.
    Bad,
    // No memory is left, or the output failed: the program ends.
    Io(io::Error),
}

impl From<io::Error> for RowError {
    fn from(e: io::Error) -> RowError {
        RowError::Io(e)
    }
}

impl From<AllocError> for RowError {
    fn from(e: AllocError) -> RowError {
        RowError::Io(io::Error::from(e))
    }
}

impl<T: Drop> From<AllocFailed<T>> for RowError {
    fn from(e: AllocFailed<T>) -> RowError {
        RowError::from(AllocError::from(e))
    }
}

// A number that is too large for what it stands for.
impl From<TryFromIntError> for RowError {
    fn from(_e: TryFromIntError) -> RowError {
        RowError::Bad
    }
}
