//! What a caller may ask for, and why a paragraph is refused.
ghost use Rattle.std.specs.Prelude.{◌≡◌};

use bidi::Direction;
use font_fallback::FallbackError;
use shape_buffer::buffer::{Feature, ShapeError};
use std::alloc::{AllocError, AllocFailed};
use thiserror::Error;

/// How a paragraph is laid out. By default its lines end where they must alone, its direction is
/// that of its first strong character, and a unit is one of the first font.
#[derive(Clone, Copy, Debug)]
pub struct ParagraphOptions<'a> {
    /// How wide lines may be. A line that can't be so narrow is as short as it can be.
    pub width: u32,
    /// The direction of the text; none for that of the first strong character of each paragraph in
    /// it.
    pub direction: Option<Direction>,
    /// How many units wide and high the em square of each font is to be; none for as many as that
    /// of the first font.
    pub size: Option<u32>,
    /// The language of the text, by its name in BCP 47.
    pub language: Option<&'a str>,
    /// The features that are asked for, each from a byte of the text up to another.
    pub features: &'a [Feature],
}

impl ParagraphOptions<'_> {
    /// Nothing is asked for.
    pub fn new() -> ParagraphOptions<'static>
        ensures { result.width ≡ u32.MAX }
    {
        ParagraphOptions {
            width: u32::MAX,
            direction: None,
            size: None,
            language: None,
            features: &[],
        }
    }
}

/// Why a text is not laid out.
#[derive(Clone, Copy, PartialEq, Eq, Debug, Error)]
pub enum ParagraphError {
    /// The list of fonts is empty.
    #[error("the list of fonts is empty")]
    NoFonts,
    /// The text has 2^32 bytes and more, or a part of it makes more glyphs than a run may.
    #[error("the text is too long, or its glyphs would be too many")]
    Length,
    /// A growth of memory was refused.
    #[error("out of memory")]
    Memory,
    /// In this size a number of a font, or of its glyphs, has more than 32 bits.
    #[error("the size is too large for the fonts")]
    Size,
    /// A font's lookups left glyphs out of the order of the text, so that they can't be cut into
    /// lines.
    #[error("glyphs are out of the order of the text")]
    Uncut,
}

impl From<AllocError> for ParagraphError {
    fn from(_error: AllocError) -> ParagraphError {
        ParagraphError::Memory
    }
}

impl<T: Drop> From<AllocFailed<T>> for ParagraphError {
    fn from(_error: AllocFailed<T>) -> ParagraphError {
        ParagraphError::Memory
    }
}

impl From<ShapeError> for ParagraphError {
    fn from(error: ShapeError) -> ParagraphError {
        match error {
            ShapeError::Length => ParagraphError::Length,
            ShapeError::Memory => ParagraphError::Memory,
        }
    }
}

impl From<FallbackError<ShapeError>> for ParagraphError {
    fn from(error: FallbackError<ShapeError>) -> ParagraphError {
        match error {
            FallbackError::NoFonts => ParagraphError::NoFonts,
            FallbackError::Memory => ParagraphError::Memory,
            FallbackError::Refused(error) => ParagraphError::from(error),
        }
    }
}
