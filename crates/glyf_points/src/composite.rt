//! The glyphs that a glyph is made of (OpenType, "glyf", composite glyphs).
ghost use Rattle.std.specs.Prelude.{◌≡◌, ◌≤◌, ◌<◌, ◌+◌, ◌^◌, length, IfOk};
ghost use Rattle.glyf_points.specs.Composite;

use font_bytes::bytes::{i8_at, i16_at, u8_at, u16_at};
use std::alloc::{AllocError, Global};

/// Where a component stands: moved so far, in units of the font; or so that a point of it comes to
/// lie on a point of the components before it, by the numbers of both.
#[derive(Clone, Copy, PartialEq, Debug)]
pub enum Placement {
    Moved(i32, i32),
    OnPoint(u16, u16),
}

impl Default for Placement {
    fn default() -> Placement {
        Placement::Moved(0, 0)
    }
}

/// What the points of a component are multiplied by, in 16384ths: x becomes `xx` of it and `yx` of
/// y, and y becomes `xy` of x and `yy` of it.
#[derive(Clone, Copy, PartialEq, Debug, Default)]
pub struct Matrix {
    pub xx: i32,
    pub xy: i32,
    pub yx: i32,
    pub yy: i32,
}

/// A glyph of those that another one is made of. If `is_offset_scaled`, it is moved before it is
/// multiplied; if `has_metrics`, the advance and bearing of the whole are those of this one.
#[derive(Clone, Copy, PartialEq, Debug, Default)]
pub struct Component {
    pub glyph: u16,
    pub placement: Placement,
    pub matrix: Matrix,
    pub is_offset_scaled: bool,
    pub has_metrics: bool,
}

/// Where the numbers of the matrix stand after a component that begins at `at`.
fn matrix_at(at: usize, flags: u16) -> usize
    requires { at < 2 ^ 33 }
    ensures value { result ≡ Composite.matrix_start at flags }
    ensures near { result < 2 ^ 34 }
{
    at + if flags & 1 != 0 { 8 } else { 6 }
}

/// How many bytes a component with these flags takes.
pub fn component_size(flags: u16) -> usize
    ensures value { result ≡ Composite.component_size flags }
    ensures few { result ≤ 16 }
{
    let matrix = if flags & 8 != 0 {
        2
    } else if flags & 0x40 != 0 {
        4
    } else if flags & 0x80 != 0 {
        8
    } else {
        0
    };
    matrix_at(0, flags) + matrix
}

/// Where a component stands.
fn placement_at(glyph: &[u8], at: usize, flags: u16) -> Placement
    requires { at < 2 ^ 33 }
    ensures { result ≡ Composite.placement_of glyph.now at flags }
{
    let are_words = flags & 1 != 0;
    if flags & 2 != 0 {
        if are_words {
            Placement::Moved(i16_at(glyph, at + 4), i16_at(glyph, at + 6))
        } else {
            Placement::Moved(i8_at(glyph, at + 4), i8_at(glyph, at + 5))
        }
    } else if are_words {
        Placement::OnPoint(u16_at(glyph, at + 4), u16_at(glyph, at + 6))
    } else {
        Placement::OnPoint(
            u16::from(u8_at(glyph, at + 4)),
            u16::from(u8_at(glyph, at + 5)),
        )
    }
}

/// What the points of a component are multiplied by.
fn matrix_of(glyph: &[u8], at: usize, flags: u16) -> Matrix
    requires { at < 2 ^ 33 }
    ensures { result ≡ Composite.matrix_of glyph.now at flags }
{
    let start = matrix_at(at, flags);
    let (mut xx, mut xy, mut yx, mut yy) = (16384, 0, 0, 16384);
    if flags & 8 != 0 {
        xx = i16_at(glyph, start);
        yy = xx;
    } else if flags & 0x40 != 0 {
        xx = i16_at(glyph, start);
        yy = i16_at(glyph, start + 2);
    } else if flags & 0x80 != 0 {
        xx = i16_at(glyph, start);
        xy = i16_at(glyph, start + 2);
        yx = i16_at(glyph, start + 4);
        yy = i16_at(glyph, start + 6);
    }
    Matrix { xx, xy, yx, yy }
}

/// The component that begins at `at`.
pub(crate) fn component_at(glyph: &[u8], at: usize, flags: u16) -> Component
    requires { at < 2 ^ 33 }
    ensures { result ≡ Composite.component_of glyph.now at flags }
{
    Component {
        glyph: u16_at(glyph, at + 2),
        placement: placement_at(glyph, at, flags),
        matrix: matrix_of(glyph, at, flags),
        is_offset_scaled: flags & 0x1800 == 0x800,
        has_metrics: flags & 0x200 != 0,
    }
}

/// The glyphs that a glyph is made of, in order, as far as they aren't cut off, and at most so
/// many: none for a glyph that is drawn by itself, and for 4 GiB or more. Refuses only if a growth
/// was refused.
#[tactic(auto, using(crate::proofs::ComponentLemmas::components_step, crate::proofs::ComponentLemmas::components_last, crate::proofs::ComponentLemmas::components_cut, crate::proofs::ComponentLemmas::components_over))]
pub fn components(alloc: Global, glyph: &[u8], most: u32) -> Result<Vec<Component>, AllocError>
    ensures { IfOk result
        (λ components. components.items ≡ Composite.components_of glyph.now most) }
{
    let mut components = Vec::new(alloc);
    if u16_at(glyph, 0) < 0x8000 || 0xFFFF_FFFF < glyph.len() {
        return Ok(components);
    }
    let mut at: usize = 10;
    for _i in 0..most {
        let flags = u16_at(glyph, at);
        let size = component_size(flags);
        if glyph.len() < at + size {
            return Ok(components);
        }
        components.push(component_at(glyph, at, flags))?;
        if flags & 0x20 == 0 {
            return Ok(components);
        }
        at += size;
    }
    Ok(components)
}
