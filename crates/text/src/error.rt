//! Why nothing is read.
ghost use Rattle.std.specs.Prelude.{◌≡◌};
ghost use Rattle.text.specs.declared.error.ReadError.TheVariants.{OutOfMemory};
ghost use Rattle.text.specs.Reads.{IsOutOfMemory};

use std::alloc::{AllocError, AllocFailed};
use std::error::Error;
use std::fmt;

/// Why a text is not read.
#[derive(Clone, Copy, Debug, PartialEq, Eq)]
pub enum ReadError {
    /// It stands for no value.
    Unreadable,
    OutOfMemory(AllocError),
}

impl fmt::Display for ReadError {
    fn fmt<W: fmt::Write>(&self, f: &mut fmt::Formatter<W>) -> fmt::Result {
        match self {
            ReadError::Unreadable => write!(f, "unreadable"),
            ReadError::OutOfMemory(error) => write!(f, "{error}"),
        }
    }
}

impl Error for ReadError {}

impl From<AllocError> for ReadError {
    ghost from_gives = { λ e r. r ≡ OutOfMemory e };

    fn from(e: AllocError) -> ReadError {
        ReadError::OutOfMemory(e)
    }
}

impl<T: Drop> From<AllocFailed<T>> for ReadError {
    ghost from_gives = { λ _ r. IsOutOfMemory r };

    fn from(e: AllocFailed<T>) -> ReadError {
        ReadError::OutOfMemory(e.into())
    }
}
