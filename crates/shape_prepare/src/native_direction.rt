//! The native order: a text runs the way its script is written.
//!
//! Lookups are made for text in the direction in which its script is written, so a text that was
//! handed over against it is reversed. Each grapheme stays as it was: its marks must stand after
//! their base. So each grapheme is reversed in place first, and then the whole list is.
//!
//! Positions are reversed with their items; all are zero then. Graphemes are merged in a walk of
//! their own before a reversal. Whether the list is reversed is decided after clusters were
//! formed.
ghost use Rattle.std.specs.Prelude.{◌≡◌, length};
ghost use Rattle.std.specs.List.{list_any};
ghost use Rattle.shape_buffer.specs.Outcome.{Made};
ghost use Rattle.shape_prepare.specs.GraphemeWalk.{reverse_span};
ghost use Rattle.shape_prepare.specs.ClustersFormed.{over_graphemes};
ghost use Rattle.shape_prepare.specs.NativeOrder;

use crate::clusters::merge_graphemes;
use crate::grapheme_walk::{GraphemeChange, each_grapheme};
use crate::graphemes::is_regional_indicator;
use shape_buffer::buffer::{
    BufferClusterLevel, Direction, Script, hb_buffer_t, hb_glyph_info_t,
    hb_unicode_general_category_t,
};
use shape_buffer::interfaces::hb_unicode_funcs_t;

/// Reverses a text that runs against its native direction, and its direction with it: horizontal
/// text unlike the direction of its script, if that is known, and vertical text that runs to the
/// top. Graphemes stay as they are; at level MONOTONE_CHARACTERS each is merged first. Text from
/// left to right that has numbers and no letter stays so under a script that is written from right
/// to left. Takes no memory.
pub fn ensure_native_direction<U: hb_unicode_funcs_t>(buffer: &mut hb_buffer_t)
    ensures { Made (NativeOrder.natively_ordered U.unicode) buffer.old buffer.new }
{
    let native = native_direction::<U>(buffer);
    if !is_against(native, buffer.direction()) {
        return;
    }
    if buffer.cluster_level() == BufferClusterLevel::MonotoneCharacters {
        merge_graphemes(buffer);
    }
    reverse_graphemes(buffer);
}

/// The direction that the text is written in, if it is known.
fn native_direction<U: hb_unicode_funcs_t>(buffer: &hb_buffer_t) -> Option<Direction>
    ensures { result ≡ NativeOrder.native_direction U.unicode buffer.now }
{
    let native = direction_of_script::<U>(buffer.script());
    match (buffer.direction(), native) {
        (Direction::LeftToRight, Some(Direction::RightToLeft))
            if has_numbers_alone(buffer.infos()) => { Some(Direction::LeftToRight) }
        _ => native,
    }
}

/// The direction that a script is written in, if it is known.
fn direction_of_script<U: hb_unicode_funcs_t>(script: Option<Script>) -> Option<Direction>
    ensures { result ≡ NativeOrder.direction_of_script U.unicode script }
{
    match U::script_direction(script?) {
        Some(Direction::Invalid) => None,
        direction => direction,
    }
}

/// Whether text of this direction is reversed to run in its native direction.
fn is_against(native: Option<Direction>, direction: Direction) -> bool
    ensures { result ≡ NativeOrder.is_against native direction }
{
    match direction {
        Direction::Invalid | Direction::TopToBottom => false,
        Direction::BottomToTop => true,
        Direction::LeftToRight => !matches!(native, None | Some(Direction::LeftToRight)),
        Direction::RightToLeft => !matches!(native, None | Some(Direction::RightToLeft)),
    }
}

/// Whether there are digits or regional indicators, and no letters.
fn has_numbers_alone(infos: &[hb_glyph_info_t]) -> bool
    ensures { result ≡ NativeOrder.has_numbers_alone infos.now }
{
    !has_letter(infos) && has_number(infos)
}

/// Whether some item is a letter.
fn has_letter(infos: &[hb_glyph_info_t]) -> bool
    ensures { result ≡ list_any NativeOrder.is_letter infos.now }
{
    infos.iter().any(|info| is_letter(info))
}

/// Whether some item is a digit or a regional indicator.
fn has_number(infos: &[hb_glyph_info_t]) -> bool
    ensures { result ≡ list_any NativeOrder.is_number infos.now }
{
    infos.iter().any(|info| is_number(info))
}

/// Whether an item is a letter.
fn is_letter(info: &hb_glyph_info_t) -> bool
    ensures { result ≡ NativeOrder.is_letter info.now }
{
    matches!(
        info._hb_glyph_info_get_general_category(),
        hb_unicode_general_category_t::UppercaseLetter
            | hb_unicode_general_category_t::LowercaseLetter
            | hb_unicode_general_category_t::TitlecaseLetter
            | hb_unicode_general_category_t::ModifierLetter
            | hb_unicode_general_category_t::OtherLetter
    )
}

/// Whether an item is a digit or a regional indicator, which run from left to right.
fn is_number(info: &hb_glyph_info_t) -> bool
    ensures { result ≡ NativeOrder.is_number info.now }
{
    matches!(
        info._hb_glyph_info_get_general_category(),
        hb_unicode_general_category_t::DecimalNumber
    ) || is_regional_indicator(info.codepoint)
}

/// Reverses the order of the graphemes, each of which stays as it is, and the direction.
fn reverse_graphemes(buffer: &mut hb_buffer_t)
    ensures { Made NativeOrder.graphemes_reversed buffer.old buffer.new }
{
    reverse_within_graphemes(buffer);
    buffer.reverse();
    let direction = buffer.direction().reverse();
    buffer.set_direction(direction);
}

/// Reverses the items of each grapheme.
fn reverse_within_graphemes(buffer: &mut hb_buffer_t)
    ensures reversed { Made (over_graphemes reverse_span) buffer.old buffer.new }
    ensures as_many { length buffer.old.positions ≡ length buffer.old.items }
{
    each_grapheme(buffer, GraphemeChange::Reverse);
}
