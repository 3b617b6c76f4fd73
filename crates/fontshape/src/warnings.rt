//! What is said of a font that doesn't have what is asked for, in a line of standard error.
use crate::failure::Failure;
use crate::options::Options;
use glyph_outlines::Outlines;
use shape_font::bytes::u16_at;
use shape_font::directory::Directory;
use shape_text_forms::SerializeFlags;
use std::alloc::{AllocError, Global};

const SBIX: u32 = 0x7362_6978;

const CBDT: u32 = 0x4342_4454;

const COLR: u32 = 0x434F_4C52;

/// What boxes a font may not have, none if it has all.
fn missing_boxes(options: &Options, bytes: &[u8]) -> Option<&'static str> {
    let index = options.face_index();
    let font = Directory::of(bytes, index);
    let bitmaps = font.has(SBIX) || font.has(CBDT);
    if !bitmaps && Outlines::from_slice(bytes, index).is_none() {
        return Some("no boxes, since it has no table glyf, CFF, CFF2, sbix or CBDT");
    }
    if u16_at(font.table_or_empty(COLR), 0) != 0 {
        return Some("no boxes of graphs of paints that are clipped to none (COLR)");
    }
    None
}

/// Writes a warning about the font.
fn warn(rt: &HostRuntime, options: &Options, what: &str) -> Result<(), Failure> {
    let name = options.font();
    match eprintln!(rt; "warning: {name}: {what}") {
        Ok(()) => Ok(()),
        Err(error) => Err(Failure::io(rt.alloc(), "standard error", error)),
    }
}

/// Says that boxes are asked for that a font hasn't.
pub fn warn_of_boxes(rt: &HostRuntime, options: &Options, bytes: &[u8]) -> Result<(), Failure> {
    if !options.form().asks(SerializeFlags::GLYPH_EXTENTS) {
        return Ok(());
    }
    let Some(missing) = missing_boxes(options, bytes) else {
        return Ok(());
    };
    warn(rt, options, missing)
}

const HVAR: u32 = 0x4856_4152;

const VVAR: u32 = 0x5656_4152;

const VORG: u32 = 0x564F_5247;

const GVAR: u32 = 0x6776_6172;

const GLYF: u32 = 0x676C_7966;

const GPOS: u32 = 0x4750_4F53;

/// What is not varied that is asked for: its names, with commas between them.
fn unvaried(alloc: Global, options: &Options, font: &Directory<'_>) -> Result<String, AllocError> {
    let upright = options.direction().is_vertical();
    let points = font.has(GVAR);
    let boxes = options.form().asks(SerializeFlags::GLYPH_EXTENTS) || !font.has(GPOS);
    let parts = [
        (
            !font.has(HVAR) && !points,
            "advances (it has no table HVAR or gvar)",
        ),
        (boxes && !points, "boxes"),
        (options.draws() && !(points && font.has(GLYF)), "outlines"),
        (
            upright && !font.has(VVAR) && !points,
            "vertical advances (it has no table VVAR or gvar)",
        ),
        (
            upright && !font.has(VORG) && !points,
            "vertical origins (it has no table VORG or gvar)",
        ),
    ];
    let mut names = String::new(alloc);
    for (is_so, name) in parts {
        if is_so {
            if !names.is_empty() {
                names.push_str(", ")?;
            }
            names.push_str(name)?;
        }
    }
    Ok(names)
}

/// Says what stays as at the default instance of a font though other coordinates are asked for.
pub fn warn_of_unvaried(
    rt: &HostRuntime,
    options: &Options,
    bytes: &[u8],
    coordinates: &[i32],
) -> Result<(), Failure> {
    let wanted = options.wanted();
    if wanted.instance.is_none() && wanted.wishes.is_empty() {
        return Ok(());
    }
    if coordinates.is_empty() {
        return warn(rt, options, "no axes, so that nothing varies");
    }
    let font = Directory::of(bytes, options.face_index());
    let names = unvaried(rt.alloc(), options, &font)?;
    if names.is_empty() {
        return Ok(());
    }
    let text = format!(in rt.alloc(); "not varied: {names}")?;
    warn(rt, options, text.as_str())
}
