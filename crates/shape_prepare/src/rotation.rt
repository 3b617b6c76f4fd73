//! Mirrored and vertical forms: characters that have another form in the direction of the text.
//!
//! A parenthesis that opens a text from right to left is drawn as the mirror image of the one that
//! opens a text from left to right (UAX 9, rule L4), and a dash that stands in a vertical line is
//! drawn upright. If Unicode has a character of that look and the face has a glyph for it, the
//! character becomes that one; else lookups get the chance, by the mask of `rtlm`, or by `vert`.
ghost use Rattle.std.specs.Prelude.{◌≡◌, ◌&&◌, not};
ghost use Rattle.shape_common.specs.Direction.{is_backward, is_vertical};
ghost use Rattle.shape_buffer.specs.Outcome.{Made};
ghost use Rattle.shape_prepare.specs.Rotated.{rotated, in_forms, mirrored_item, vertical_item};

use shape_buffer::buffer::{Direction, hb_buffer_t, hb_glyph_info_t, hb_mask_t};
use shape_buffer::interfaces::{hb_font_t, hb_unicode_funcs_t};
use shape_buffer::walks::update_items;
use shape_plan::ot_shape_plan::hb_ot_shape_plan_t;
use shape_plan::shaping_types::{PlanOf, ShapingTypes};

/// With a backward target direction, makes each character the mirrored one, if the face has that,
/// and adds the mask of the feature `rtlm` to every other item. With a vertical target direction,
/// if no lookup makes vertical forms, makes each character its vertical form, if the face has that.
/// Properties stay. Takes no memory.
pub fn rotate_chars<T: ShapingTypes>(
    plan: &PlanOf<'_, T>,
    face: &T::Face,
    buffer: &mut hb_buffer_t,
    target: Direction,
)
    ensures { Made (rotated T.Unicode.unicode (T.Face.face face.now) plan.now.decisions target)
        buffer.old buffer.new }
{
    let forms = Forms::of(plan, target);
    if forms.is_idle() {
        return;
    }
    update_items(
        buffer,
        |info| forms.rotated::<T::Unicode, T::Face>(face, info),
    );
}

/// Which forms the characters of a text take.
#[derive(Clone, Copy)]
struct Forms {
    mirrors: bool,
    /// The mask of what isn't mirrored here, for lookups to mirror it.
    rtlm_mask: hb_mask_t,
    is_upright: bool,
}

impl Forms {
    /// The forms for a target direction.
    fn of<S, P, D>(plan: &hb_ot_shape_plan_t<'_, S, P, D>, target: Direction) -> Self
        ensures { result ≡ record {
          mirrors = is_backward target;
          rtlm_mask = plan.now.decisions.rtlm_mask;
          is_upright = is_vertical target && not plan.now.decisions.has_vert;
        } }
    {
        Forms {
            mirrors: target.is_backward(),
            rtlm_mask: plan.rtlm_mask(),
            is_upright: target.is_vertical() && !plan.has_vert(),
        }
    }

    /// Whether every character stays.
    fn is_idle(self) -> bool
        ensures { result ≡ (not self.mirrors && not self.is_upright) }
    {
        !self.mirrors && !self.is_upright
    }

    /// An item in these forms.
    fn rotated<U: hb_unicode_funcs_t, F: hb_font_t>(
        self,
        face: &F,
        info: &hb_glyph_info_t,
    ) -> hb_glyph_info_t
        ensures { result
            ≡ in_forms U.unicode (F.face face.now)
            self.mirrors self.rtlm_mask self.is_upright info.now }
    {
        let mut info = *info;
        if self.mirrors {
            info = mirrored::<U, F>(face, &info, self.rtlm_mask);
        }
        if self.is_upright {
            info = upright::<U, F>(face, &info);
        }
        info
    }
}

/// An item with its mirrored character, if the face has that, else with the mask added.
fn mirrored<U: hb_unicode_funcs_t, F: hb_font_t>(
    face: &F,
    info: &hb_glyph_info_t,
    rtlm_mask: hb_mask_t,
) -> hb_glyph_info_t
    ensures { result ≡ mirrored_item U.unicode (F.face face.now) rtlm_mask info.now }
{
    let mut result = *info;
    match U::mirrored(info.codepoint) {
        Some(c) if face.has_glyph(c) => result.codepoint = c,
        _ => result.mask |= rtlm_mask,
    }
    result
}

/// An item with the vertical form of its character, if the face has that.
fn upright<U: hb_unicode_funcs_t, F: hb_font_t>(face: &F, info: &hb_glyph_info_t) -> hb_glyph_info_t
    ensures { result ≡ vertical_item U.unicode (F.face face.now) info.now }
{
    let mut result = *info;
    match U::vertical(info.codepoint) {
        Some(c) if face.has_glyph(c) => result.codepoint = c,
        _ => {}
    }
    result
}
