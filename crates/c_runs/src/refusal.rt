//! Why a call stops.
ghost use Rattle.std.specs.Prelude.{◌≡◌, ◌<◌};
ghost use Rattle.c_runs.specs.Numbers.{code_of};
ghost use Rattle.c_runs.specs.Numbers.{reason_of};
ghost use Rattle.c_runs.specs.declared.refusal.Refusal.TheVariants.{Memory};

use shape_buffer::buffer::ShapeError;
use std::alloc::{AllocError, AllocFailed};

/// The number of a call that was not refused.
pub const DONE: u32 = 0;

/// The reasons.
#[derive(Clone, Copy, PartialEq, Eq, Debug)]
pub enum Refusal {
    /// A growth of memory was refused.
    Memory,
    /// A step would have left a list past the run's limit.
    Length,
    /// The bytes have no font with this number.
    Font,
    /// The text of a run, or the one beside it, is not UTF-8; or a text is no feature.
    Text,
    /// The places of a run aren't in order or not in the text, or its direction or level has no
    /// such number.
    Run,
    /// An array has no room: that of glyphs for those of the run, or that of coordinates for all.
    Room,
}

impl Refusal {
    /// The number of the reason.
    pub fn code(self) -> u32
        ensures number { result ≡ code_of self }
        ensures some { 0 < result }
    {
        match self {
            Refusal::Memory => 1,
            Refusal::Length => 2,
            Refusal::Font => 3,
            Refusal::Text => 4,
            Refusal::Run => 5,
            Refusal::Room => 6,
        }
    }
}

impl From<ShapeError> for Refusal {
    ghost from_gives = { λ error refusal. refusal ≡ reason_of error };

    fn from(error: ShapeError) -> Refusal {
        match error {
            ShapeError::Memory => Refusal::Memory,
            ShapeError::Length => Refusal::Length,
        }
    }
}

impl From<AllocError> for Refusal {
    ghost from_gives = { λ _ refusal. refusal ≡ Memory };

    fn from(_error: AllocError) -> Refusal {
        Refusal::Memory
    }
}

impl<T: Drop> From<AllocFailed<T>> for Refusal {
    ghost from_gives = { λ _ refusal. refusal ≡ Memory };

    fn from(_error: AllocFailed<T>) -> Refusal {
        Refusal::Memory
    }
}
