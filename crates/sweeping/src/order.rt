//! What a sweep is asked for.
use script::Values;
use std::alloc::AllocError;
use std::error::Error;
use std::fmt;
use text::{BadLine, ReadError};

/// A set-up, a command, and the longest run of losses.
#[derive(Drop)]
pub struct Order {
    pub values: Values,
    pub command: Vec<u8>,
    pub losses: usize,
}

/// Why an order is not read.
#[derive(Clone, Copy, Debug, PartialEq, Eq)]
pub enum OrderError {
    /// The line of this number cannot be read.
    Line(usize),
    OutOfMemory(AllocError),
}

impl OrderError {
    ghost use Rattle.std.specs.Prelude.{◌≡◌};
    ghost use Rattle.sweeping.specs.OrderViews.{error_at};

    /// What stands in a line is not read.
    pub(super) fn at(line: usize, why: ReadError) -> OrderError
        ensures { result ≡ error_at line why }
    {
        match why {
            ReadError::Unreadable => OrderError::Line(line),
            ReadError::OutOfMemory(error) => OrderError::OutOfMemory(error),
        }
    }
}

impl fmt::Display for OrderError {
    fn fmt<W: fmt::Write>(&self, f: &mut fmt::Formatter<W>) -> fmt::Result {
        match self {
            OrderError::Line(n) => write!(f, "{}", BadLine(*n)),
            OrderError::OutOfMemory(error) => write!(f, "{error}"),
        }
    }
}

impl Error for OrderError {}
