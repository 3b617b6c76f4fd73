//! Where a pointer meets a glyph: a rectangle for each.
use crate::drawing::{Bounds, Drawing, Place, rounded};
use crate::drawn::{MOST_BYTES, place_at, places};
use crate::sheet::Sheet;
use shape_buffer::{GlyphBuffer, hb_glyph_info_t};
use std::alloc::{AllocError, Global};

/// The rectangle of a glyph: its outline's, and if it moves the pen a strip along that way; a
/// small one about its origin if it has neither.
fn spot(outline: Option<Bounds>, from: Place, to: Place, em: f64, down: bool) -> Bounds {
    let moves = from.x != to.x || from.y != to.y;
    let start = outline.unwrap_or(Bounds::at(from));
    if moves && down {
        let left = Place {
            x: from.x - em * 0.25,
            y: from.y,
        };
        let right = Place {
            x: to.x + em * 0.25,
            y: to.y,
        };
        start.with(left).with(right)
    } else if moves {
        let top = Place {
            x: to.x,
            y: to.y + em * 0.5,
        };
        start.with(from).with(top)
    } else if outline.is_none() {
        let far = em * 0.0625;
        start
            .with(Place {
                x: from.x - far,
                y: from.y - far,
            })
            .with(Place {
                x: from.x + far,
                y: from.y + far,
            })
    } else {
        start
    }
}

/// A rectangle of a glyph as SVG.
fn rectangle(
    alloc: Global,
    at: usize,
    info: &hb_glyph_info_t,
    bounds: Bounds,
) -> Result<String, AllocError> {
    let mut out = String::new(alloc);
    let cluster = info.cluster;
    let stop = if at == 0 { 0 } else { -1 };
    write!(
        out,
        "<rect class=\"spot\" data-i=\"{at}\" data-c=\"{cluster}\" tabindex=\"{stop}\""
    )?;
    let (x, y) = (rounded(bounds.left), rounded(bounds.low));
    write!(out, " x=\"{x}\" y=\"{y}\"")?;
    let (width, height) = (
        rounded(bounds.right - bounds.left),
        rounded(bounds.high - bounds.low),
    );
    write!(out, " width=\"{width}\" height=\"{height}\"/>\n")?;
    Ok(out)
}

/// The rectangles of a line's glyphs, as many as [`MOST_BYTES`] hold.
pub(crate) fn spots(
    alloc: Global,
    drawing: &Drawing,
    glyphs: &GlyphBuffer,
    em: f64,
) -> Result<Sheet, AllocError> {
    let places = places(alloc, glyphs)?;
    let places = places.as_slice();
    let down = glyphs.direction().is_vertical();
    let mut out = Sheet::new(alloc, MOST_BYTES);
    for (at, info) in glyphs.glyph_infos().iter().enumerate() {
        if out.is_full() {
            break;
        }
        let outline = drawing.boxes().get(at).copied().flatten();
        let (from, to) = (place_at(places, at), place_at(places, at.saturating_add(1)));
        let bounds = spot(outline, from, to, em, down);
        let rectangle = rectangle(alloc, at, info, bounds)?;
        out.put(rectangle.as_str())?;
    }
    Ok(out)
}
