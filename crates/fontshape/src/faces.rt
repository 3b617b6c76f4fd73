//! The faces of a font: at the size that lines are shaped in, and at none, for what is drawn.
use crate::failure::Failure;
use crate::line::Line;
use crate::options::Options;
use crate::shaping::{Planned, opened, shaped};
use opentype_layout::OpenedOpenTypeFace;
use shape_font::FontFace;
use shape_pipeline::{GlyphBuffer, ShapeError};
use std::alloc::Global;

/// The face of a font, and the same face for its tables of lookups if that was opened.
#[derive(Drop)]
pub struct Faces<'a> {
    pub face: FontFace<'a>,
    pub opened: Option<OpenedOpenTypeFace<'a>>,
}

/// A face at no size with the plan of its last line: outlines are drawn in the units of the font.
#[derive(Drop)]
pub struct Plain<'a> {
    pub face: FontFace<'a>,
    pub planned: Option<Planned<'a>>,
}

impl<'a> Plain<'a> {
    /// The glyphs of a line.
    pub fn shaped(
        &mut self,
        alloc: Global,
        options: &Options,
        line: &Line,
    ) -> Result<GlyphBuffer, ShapeError> {
        shaped(alloc, options, &self.face, self.planned.as_mut(), line)
    }
}

/// The faces over a face.
pub fn faces_over<'a>(
    alloc: Global,
    options: &Options,
    face: FontFace<'a>,
) -> Result<Faces<'a>, Failure> {
    match opened(alloc, options, face) {
        Ok(opened) => Ok(Faces { face, opened }),
        Err(_) => Err(Failure::Memory),
    }
}

/// The faces at no size, if lines are drawn that have one.
pub fn plain_faces<'a>(
    alloc: Global,
    options: &Options,
    face: FontFace<'a>,
    drawn: bool,
) -> Result<Option<Faces<'a>>, Failure> {
    match options.size() {
        Some(_) if drawn => Ok(Some(faces_over(alloc, options, face)?)),
        _ => Ok(None),
    }
}

/// The face at the size that the options ask for.
pub fn at_size<'a>(options: &Options, face: FontFace<'a>) -> FontFace<'a> {
    match options.size() {
        Some(size) => face.at_size(size),
        None => face,
    }
}

/// A face at no size, without a plan yet.
pub fn unplanned<'a>(faces: &'a Faces<'a>) -> Plain<'a> {
    Plain {
        face: faces.face,
        planned: faces.opened.as_ref().map(Planned::new),
    }
}
