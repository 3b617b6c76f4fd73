//! Why a call was refused.
ghost use Rattle.std.specs.Prelude.{◌≡◌};
ghost use Rattle.shape_buffer.specs.declared.buffer.error.ShapeError.TheVariants.{Memory};

use crate::buffer::unicode_buffer::UnicodeBuffer;
use std::alloc::{AllocError, AllocFailed};
use std::error::Error;
use std::fmt;

/// Why a call was refused.
#[derive(Clone, Copy, PartialEq, Eq, Debug)]
pub enum ShapeError {
    /// A growth was refused.
    Memory = 1,
    /// A list would be longer than the run's limit.
    Length = 2,
}

/// A refused run: why, and the buffer, cleared and ready for new text.
#[derive(Drop, Debug)]
pub struct ShapeFault {
    pub cause: ShapeError,
    pub buffer: UnicodeBuffer,
}

impl fmt::Display for ShapeError {
    fn fmt<W: fmt::Write>(&self, f: &mut fmt::Formatter<W>) -> fmt::Result {
        match self {
            ShapeError::Memory => write!(f, "out of memory"),
            ShapeError::Length => write!(f, "too many items"),
        }
    }
}

impl Error for ShapeError {}

impl From<AllocError> for ShapeError {
    ghost from_gives = { λ _ e. e ≡ Memory };

    fn from(_error: AllocError) -> ShapeError {
        ShapeError::Memory
    }
}

impl<T: Drop> From<AllocFailed<T>> for ShapeError {
    ghost from_gives = { λ _ e. e ≡ Memory };

    fn from(_error: AllocFailed<T>) -> ShapeError {
        ShapeError::Memory
    }
}

impl fmt::Display for ShapeFault {
    fn fmt<W: fmt::Write>(&self, f: &mut fmt::Formatter<W>) -> fmt::Result {
        let cause = self.cause;
        write!(f, "{cause}")
    }
}

impl Error for ShapeFault {}
