//! What the words after the first one of a line set.
//!
//! Each function reads all words of its line and refuses a line that has others; none takes memory.
//!
//! `auto` is kept as the direction Invalid, which guessing fills in. Bits of `flags` are tested
//! by `BufferFlags::from_bits`, so by the flags' own table.
ghost use Rattle.std.specs.Prelude.{MatchOption};
ghost use Rattle.std.specs.Option.{SomeIff};
ghost use Rattle.shape_sessions.specs.Modes.{mode_of};
ghost use Rattle.shape_sessions.specs.Settings;
ghost use Rattle.shape_sessions.specs.Words as word_rules;

use crate::command;
use crate::mode::Mode;
use crate::parse::{Words, character, integer, natural};
use bitflags::Flags;
use shape_buffer::buffer::{BufferClusterLevel, BufferFlags, Direction, GlyphId};
use shape_buffer::interfaces::{Metrics, hb_glyph_extents_t};

/// The greatest number of units per em, and of a glyph.
const GREATEST: u32 = 0xFFFF;

/// What a line says of a glyph.
#[derive(Clone, Copy)]
pub struct GlyphLine {
    pub c: char,
    pub glyph: GlyphId,
    pub metrics: Metrics,
}

/// The number of the one word. Refuses a number above `most`.
fn number(mut words: Words, most: u32) -> Option<u32>
    ensures { SomeIff result (Settings.IsNumber most (word_rules.words words.entry.rest.now))
        (Settings.number (word_rules.words words.entry.rest.now)) }
{
    let number = natural(words.next()?, most)?;
    if words.next().is_some() {
        return None;
    }
    Some(number)
}

/// The units per em of a face, which are not 0.
pub fn units_per_em(words: Words) -> Option<u16>
    ensures { SomeIff result (Settings.IsUnits (word_rules.words words.entry.rest.now))
        (Settings.number (word_rules.words words.entry.rest.now)) }
{
    let units = number(words, GREATEST)?;
    if units == 0 { None } else { Some(units as u16) }
}

/// How texts are to be normalised.
pub fn mode(words: Words) -> Option<Mode>
    ensures { SomeIff result (Settings.IsNumber 4 (word_rules.words words.entry.rest.now))
        (mode_of (Settings.number (word_rules.words words.entry.rest.now))) }
{
    Mode::from_number(number(words, 4)?)
}

/// How far clusters are to be merged.
pub fn level(words: Words) -> Option<BufferClusterLevel>
    ensures { SomeIff result (Settings.IsNumber 2 (word_rules.words words.entry.rest.now))
        (Settings.level_of (Settings.number (word_rules.words words.entry.rest.now))) }
{
    match number(words, 2)? {
        0 => Some(BufferClusterLevel::MonotoneGraphemes),
        1 => Some(BufferClusterLevel::MonotoneCharacters),
        _ => Some(BufferClusterLevel::Characters),
    }
}

/// What is to be asked of a run. Refuses bits that are no flag.
pub fn flags(words: Words) -> Option<BufferFlags>
    ensures { SomeIff result (Settings.IsFlags (word_rules.words words.entry.rest.now))
        (record { 0 = Settings.number (word_rules.words words.entry.rest.now) }) }
{
    BufferFlags::from_bits(number(words, u32::MAX)?)
}

/// The direction that texts are to run in; Invalid if it is to be guessed.
pub fn direction(mut words: Words) -> Option<Direction>
    ensures { SomeIff result (Settings.IsDirection (word_rules.words words.entry.rest.now))
        (Settings.direction_said (word_rules.words words.entry.rest.now)) }
{
    let direction = command::direction(words.next()?)?;
    if words.next().is_some() {
        return None;
    }
    Some(direction)
}

/// The extents of a glyph; none are said if there are no words.
fn extents(mut words: Words) -> Option<Option<hb_glyph_extents_t>>
    ensures { SomeIff result (Settings.IsExtents (word_rules.words words.entry.rest.now))
        (Settings.extents_of (word_rules.words words.entry.rest.now)) }
{
    let Some(x_bearing) = words.next() else {
        return Some(None);
    };
    let extents = hb_glyph_extents_t {
        x_bearing: integer(x_bearing)?,
        y_bearing: integer(words.next()?)?,
        width: integer(words.next()?)?,
        height: integer(words.next()?)?,
    };
    if words.next().is_some() {
        return None;
    }
    Some(Some(extents))
}

/// A character, its glyph and what is said of that.
pub fn glyph(mut words: Words) -> Option<GlyphLine>
    ensures { MatchOption result
        (¬ Settings.IsGlyph (word_rules.words words.entry.rest.now))
        (λ said. Settings.IsGlyph (word_rules.words words.entry.rest.now)
        × Settings.SaysGlyph (word_rules.words words.entry.rest.now) said) }
{
    let c = character(words.next()?)?;
    let glyph = GlyphId(natural(words.next()?, GREATEST)?);
    let advance = integer(words.next()?)?;
    let extents = extents(words)?;
    Some(GlyphLine {
        c,
        glyph,
        metrics: Metrics { advance, extents },
    })
}
