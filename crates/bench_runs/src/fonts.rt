//! Runs over the bytes of a font file.
ghost use Rattle.std.specs.Prelude.{◌≡◌};

use crate::runs::{Text, shape_fresh, shape_kept};
use crate::scripts::shape_scripted;
use kern_table::KernTable;
use opened_face::{OpenedFace, OpenedKernTable};
use opentype_layout::{OpenTypeFace, OpenTypeLayout, OpenedOpenTypeFace};
use shape_buffer::buffer::BufferClusterLevel;
use shape_buffer::interfaces::{NoLookups, hb_font_t, hb_ot_layout_t};
use shape_font::FontFace;
use std::alloc::Global;

fn shape_by<F: hb_font_t, M: hb_ot_layout_t<F>>(
    alloc: Global,
    face: &F,
    text: &str,
    kept: bool,
    times: u32,
) -> usize {
    let level = BufferClusterLevel::default();
    let outcome = if kept {
        shape_kept::<F, M>(alloc, face, level, Text::Utf8(text), times)
    } else {
        shape_fresh::<F, M>(alloc, face, level, Text::Utf8(text), times)
    };
    outcome.unwrap_or(0)
}

/// What a run is to be: with one plan for all times, or a plan each time; with the table `kern`, or
/// without lookups; over the face that is opened once, or over the one without tables beside it; by
/// the shaper of the text's script, or by the default one.
#[derive(Clone, Copy)]
struct How {
    kept: bool,
    kerned: bool,
    opened: bool,
    scripted: bool,
}

/// Shapes a text over the face without tables beside it.
fn shape_plainly(alloc: Global, face: &FontFace<'_>, text: &str, how: How, times: u32) -> usize {
    if how.kerned {
        shape_by::<FontFace<'_>, KernTable>(alloc, face, text, how.kept, times)
    } else {
        shape_by::<FontFace<'_>, NoLookups>(alloc, face, text, how.kept, times)
    }
}

/// Shapes a text over the face that is opened once.
fn shape_opened(alloc: Global, face: FontFace<'_>, text: &str, how: How, times: u32) -> usize {
    let Ok(opened) = OpenedFace::new(alloc, face) else {
        return 0;
    };
    if how.kerned {
        shape_by::<OpenedFace<'_>, OpenedKernTable>(alloc, &opened, text, how.kept, times)
    } else {
        shape_by::<OpenedFace<'_>, NoLookups>(alloc, &opened, text, how.kept, times)
    }
}

/// Shapes a text by the tables of lookups of the font, over the face that is opened once or over
/// the one without tables beside it. By the shaper of its script it is shaped over the face that is
/// opened once, with one plan.
fn shape_laid_out(
    alloc: Global,
    face: OpenTypeFace<'_>,
    text: &str,
    how: How,
    times: u32,
) -> usize {
    if !how.opened {
        return shape_by::<OpenTypeFace<'_>, OpenTypeLayout>(alloc, &face, text, how.kept, times);
    }
    match OpenedOpenTypeFace::new(alloc, face) {
        Ok(opened) if how.scripted => shape_scripted(alloc, &opened, text, times).unwrap_or(0),
        Ok(opened) => shape_by::<OpenedOpenTypeFace<'_>, OpenTypeLayout>(
            alloc, &opened, text, how.kept, times,
        ),
        Err(_) => 0,
    }
}

/// Shapes a text over a font file so many times. Bits of `how`: 1 takes one plan for all times, 2
/// kerns by the table `kern`, 4 takes the face that is opened once, 8 takes all tables of lookups
/// in place of `kern`, 16 with 4 and 8 takes the shaper of the text's script. For 0 times nothing
/// is shaped.
#[unsafe(no_mangle)]
pub extern "C" fn bench_font(alloc: Global, font: &[u8], utf8: &[u8], how: u32, times: u32) -> usize
    ensures { times ≡ 0 → result ≡ 0 }
{
    if times == 0 {
        return 0;
    }
    let (Some(face), Ok(text)) = (FontFace::from_slice(font, 0), str::from_utf8(utf8)) else {
        return 0;
    };
    let asked = How {
        kept: how & 1 != 0,
        kerned: how & 2 != 0,
        opened: how & 4 != 0,
        scripted: how & 16 != 0,
    };
    if how & 8 != 0 {
        shape_laid_out(alloc, OpenTypeFace::new(face), text, asked, times)
    } else if !asked.opened {
        shape_plainly(alloc, &face, text, asked, times)
    } else {
        shape_opened(alloc, face, text, asked, times)
    }
}
