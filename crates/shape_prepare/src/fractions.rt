//! Fractions: digits on both sides of U+2044, the fraction slash.
//!
//! The Unicode Standard (section 6.2, "Fraction Slash") has the digits directly before the slash as
//! the numerator and those directly after it as the denominator. A font has features for the two
//! parts and one for the whole; here each part gets its features, so that a font needn't look for
//! digits. In a buffer that isn't forward the denominator comes first.
//!
//! A digit is an item of category DecimalNumber, a slash with that category too; with Unicode's
//! own categories there is none.
ghost use Rattle.std.specs.Prelude.{◌≡◌, ◌+◌, ◌-◌, ◌^◌, ◌<◌, ◌≤◌, ◌&&◌, nat_lt, length};
ghost use Rattle.std.specs.List.{prefix_len, suffix_len};
ghost use Rattle.shape_buffer.specs.Outcome.{Made};
ghost use Rattle.shape_prepare.specs.Fractions;

use bitflags::Flags;
use shape_buffer::buffer::{
    Direction, ScratchFlags, hb_buffer_t, hb_glyph_info_t, hb_mask_t, hb_unicode_general_category_t,
};
use shape_plan::ot_shape_plan::hb_ot_shape_plan_t;

const FRACTION_SLASH: char = '\u{2044}';

/// The features that are added around a slash: to the digits before it, to itself, to those after
/// it.
#[derive(Clone, Copy, Debug)]
pub struct FractionMasks {
    pub before: hb_mask_t,
    pub slash: hb_mask_t,
    pub after: hb_mask_t,
}

/// The features of fractions: the numerator comes first if text runs forward, else the denominator.
fn fraction_masks<S, P, D>(
    plan: &hb_ot_shape_plan_t<'_, S, P, D>,
    direction: Direction,
) -> FractionMasks
    ensures { result ≡ Fractions.fraction_masks plan.now.decisions direction }
{
    let slash = plan.frac_mask();
    let numerator = plan.numr_mask() | slash;
    let denominator = slash | plan.dnom_mask();
    if direction.is_forward() {
        FractionMasks {
            before: numerator,
            slash,
            after: denominator,
        }
    } else {
        FractionMasks {
            before: denominator,
            slash,
            after: numerator,
        }
    }
}

fn is_slash(info: &hb_glyph_info_t) -> bool
    ensures { result ≡ Fractions.is_slash info.now }
{
    info.codepoint == FRACTION_SLASH
}

fn is_digit(info: &hb_glyph_info_t) -> bool
    ensures { result ≡ Fractions.is_digit info.now }
{
    matches!(
        info._hb_glyph_info_get_general_category(),
        hb_unicode_general_category_t::DecimalNumber
    )
}

/// How many items at the beginning are digits.
fn digits_at_start(infos: &[hb_glyph_info_t]) -> usize
    ensures value { result ≡ prefix_len Fractions.is_digit infos.now }
    ensures within { result ≤ length infos.now }
{
    infos.iter().take_while(|info| is_digit(info)).count()
}

/// How many items at the end are digits.
fn digits_at_end(infos: &[hb_glyph_info_t]) -> usize
    ensures value { result ≡ suffix_len Fractions.is_digit infos.now }
    ensures within { result ≤ length infos.now }
{
    infos.iter().rev().take_while(|info| is_digit(info)).count()
}

/// Where the digits directly before a slash begin: at the slash itself if there are none.
fn whole_start(infos: &[hb_glyph_info_t], slash: usize) -> usize
    requires { slash < length infos.now }
    ensures value { result ≡ Fractions.whole_start infos.now slash }
    ensures within { result ≤ slash }
{
    slash - digits_at_end(&infos[..slash])
}

/// Where the digits directly after a slash end: right after the slash if there are none.
fn whole_end(infos: &[hb_glyph_info_t], slash: usize) -> usize
    requires { slash < length infos.now }
    ensures value { result ≡ Fractions.whole_end infos.now slash }
    ensures after { slash + 1 ≤ result }
    ensures within { result ≤ length infos.now }
{
    slash + 1 + digits_at_start(&infos[slash + 1..])
}

/// Whether a whole from `start` to `end` has digits on both sides of its slash.
fn has_both_sides(start: usize, slash: usize, end: usize) -> bool
    requires { slash < 2 ^ 64 - 1 }
    ensures { result ≡ (nat_lt start slash && nat_lt (slash + 1) end) }
{
    start < slash && slash + 1 < end
}

/// Adds features to the items from place `start` up to `end`.
fn add_features(buffer: &mut hb_buffer_t, mask: hb_mask_t, start: usize, end: usize)
    requires ordered { start ≤ end }
    requires within { end ≤ length buffer.old.items }
    ensures added { Made (Fractions.features_added mask start end) buffer.old buffer.new }
    ensures as_long { length buffer.new.items ≡ length buffer.old.items }
{
    for i in start..end {
        let mut info = buffer.infos()[i];
        info.mask |= mask;
        buffer.set_info(i, info);
    }
}

/// Masks the whole round a slash, or marks a slash without digits on one side unsafe to concat.
/// Returns where the walk goes on.
fn mask_slash(buffer: &mut hb_buffer_t, masks: FractionMasks, slash: usize) -> usize
    requires { slash < length buffer.old.items }
    ensures masked { Made (Fractions.slash_masked masks slash) buffer.old buffer.new }
    ensures as_long { length buffer.new.items ≡ length buffer.old.items }
    ensures next { result ≡ Fractions.next_place buffer.old.items slash }
{
    let start = whole_start(buffer.infos(), slash);
    let end = whole_end(buffer.infos(), slash);
    if !has_both_sides(start, slash, end) {
        buffer.unsafe_to_concat(slash, slash + 1);
        return slash + 1;
    }
    buffer.unsafe_to_break(start, end);
    add_features(buffer, masks.before, start, slash);
    add_features(buffer, masks.slash, slash, slash + 1);
    add_features(buffer, masks.after, slash + 1, end);
    end
}

/// Masks the wholes from left to right. A slash that stands among the digits of a whole is skipped.
fn mask_slashes(buffer: &mut hb_buffer_t, masks: FractionMasks)
    ensures { Made (λ b. Fractions.slashes_masked masks 0
        (Fractions.slash_places 0 b.items) b) buffer.old buffer.new }
{
    let mut next = 0;
    for i in 0..buffer.len() {
        if is_slash(&buffer.infos()[i]) && next <= i {
            next = mask_slash(buffer, masks, i);
        }
    }
}

/// Whether the plan has lookups for fractions and a character past ASCII was seen.
fn may_have_fractions<S, P, D>(plan: &hb_ot_shape_plan_t<'_, S, P, D>, buffer: &hb_buffer_t) -> bool
    ensures { result ≡ Fractions.may_have_fractions plan.now.decisions buffer.now }
{
    plan.has_frac() && buffer.scratch_flags().contains(ScratchFlags::HAS_NON_ASCII)
}

/// Adds the features of fractions, if the plan has lookups for them and a character past ASCII was
/// seen: to the digits before a fraction slash, to the slash, and to those after it. The whole is
/// marked unsafe to break; a slash without digits on one side is marked unsafe to concat and gets
/// no feature. Takes no memory.
pub fn setup_masks_fraction<S, P, D>(
    plan: &hb_ot_shape_plan_t<'_, S, P, D>,
    buffer: &mut hb_buffer_t,
)
    ensures { Made (Fractions.fractions_masked plan.now.decisions) buffer.old buffer.new }
{
    if may_have_fractions(plan, buffer) {
        let masks = fraction_masks(plan, buffer.direction());
        mask_slashes(buffer, masks);
    }
}
