//! The dotted circle: a base for a mark that begins a text.
//!
//! A mark with nothing before it would hang on whatever is printed beside it. So it gets a dotted
//! circle to stand on, as code charts have it, unless the caller forbids it or the text goes on
//! from another one.
ghost use Rattle.std.specs.Prelude.{◌≡◌, ◌<◌, length, IsTrue};
ghost use Rattle.shape_buffer.specs.Outcome.{Outcome, IsWithinLimit, step};
ghost use Rattle.canonical_form.specs.Expanded;
ghost use Rattle.shape_items.specs.Items.{is_mark_item};
ghost use Rattle.shape_prepare.specs.DottedCircle;
ghost use Rattle.shape_items.specs.UnicodeProps.{with_scratch_of};

use bitflags::Flags;
use shape_buffer::buffer::{BufferFlags, ScratchFlags, ShapeError, hb_buffer_t, hb_glyph_info_t};
use shape_buffer::interfaces::{hb_font_t, hb_unicode_funcs_t};

/// U+25CC, on which charts show a mark.
const DOTTED_CIRCLE: char = '\u{25CC}';

/// Puts a dotted circle before a mark that begins the text, with its own properties and the mark's
/// mask and cluster: if the flags say that the text begins here and don't forbid it, there is no
/// pre-context, and the face has the character. Refuses with `Length` if the list has reached its
/// limit, and with `Memory` if a growth was refused.
pub fn insert_dotted_circle<U: hb_unicode_funcs_t, F: hb_font_t>(
    face: &F,
    buffer: &mut hb_buffer_t,
) -> Result<(), ShapeError>
    requires { IsWithinLimit buffer.old }
    ensures { Outcome (step (DottedCircle.dotted_circled U.unicode (F.face face.now)))
        buffer.old buffer.new result }
{
    if takes_circle(face, buffer) && begins_with_mark(buffer.infos()) {
        return insert_circle::<U>(buffer);
    }
    Ok(())
}

/// Puts a dotted circle before the first item.
fn insert_circle<U: hb_unicode_funcs_t>(buffer: &mut hb_buffer_t) -> Result<(), ShapeError>
    requires within { IsWithinLimit buffer.old }
    requires some { 0 < length buffer.old.items }
    ensures { Outcome (step (λ b. DottedCircle.with_circle U.unicode b.items b)) buffer.old
        buffer.new result }
{
    let mut scratch_flags = buffer.scratch_flags();
    let circle = circle_before::<U>(&buffer.infos()[0], &mut scratch_flags);
    buffer.insert(0, circle)?;
    buffer.set_scratch_flags(scratch_flags);
    Ok(())
}

/// Whether there is a first item and it is a mark.
fn begins_with_mark(infos: &[hb_glyph_info_t]) -> bool
    ensures mark { result ≡ Expanded.begins_with_mark is_mark_item infos.now }
    ensures some { IsTrue result → 0 < length infos.now }
{
    match infos.first() {
        Some(info) => info._hb_glyph_info_is_unicode_mark(),
        None => false,
    }
}

/// Whether a mark that begins the text is to get a dotted circle.
fn takes_circle<F: hb_font_t>(face: &F, buffer: &hb_buffer_t) -> bool
    ensures { result ≡ DottedCircle.takes_circle (F.face face.now) buffer.now }
{
    let flags = buffer.flags();
    !flags.contains(BufferFlags::DO_NOT_INSERT_DOTTED_CIRCLE)
        && flags.contains(BufferFlags::BEGINNING_OF_TEXT)
        && buffer.pre_context().is_empty()
        && face.has_glyph(DOTTED_CIRCLE)
}

/// The dotted circle that goes before an item; also sets the scratch flags that it shows.
fn circle_before<U: hb_unicode_funcs_t>(
    info: &hb_glyph_info_t,
    scratch_flags: &mut ScratchFlags,
) -> hb_glyph_info_t
    ensures circle { result ≡ DottedCircle.circle_before U.unicode info.now }
    ensures flags { scratch_flags.new ≡ with_scratch_of U.unicode 0x25CC scratch_flags.old }
{
    let mut circle = hb_glyph_info_t::new(DOTTED_CIRCLE, info.cluster);
    circle.init_unicode_props::<U>(scratch_flags);
    circle.mask = info.mask;
    circle
}
