//! The structs that cross to C and back: numbers alone.
ghost use Rattle.std.specs.Prelude.{◌≡◌, true, false, map, IfOk, IfErr, MatchResult};
ghost use Rattle.shape_common.specs.declared.text_types.Script.{Script as AnyScript};
ghost use Rattle.c_runs.specs.Glyphs.{glyph_of};
ghost use Rattle.c_runs.specs.Numbers.{code_of, direction_number, direction_of, is_direction};
ghost use Rattle.c_runs.specs.Numbers.{feature_of_c, is_level, level_of, script_of};

use crate::refusal::Refusal;
use shape_buffer::buffer::{
    BufferClusterLevel, Direction, Feature, GlyphPosition, Script, hb_glyph_info_t, hb_tag_t,
};
use std::alloc::Global;

/// A feature that is asked for, over the characters whose cluster is in `start..end`.
#[repr(C)]
#[derive(Clone, Copy)]
pub struct luthgarn_feature {
    pub tag: u32,
    pub value: u32,
    pub start: u32,
    pub end: u32,
}

/// A wish for an axis of a variable font: its tag, and the value, in the units of users.
#[repr(C)]
#[derive(Clone, Copy)]
pub struct luthgarn_variation {
    pub tag: u32,
    pub value: f32,
}

/// A run: the characters from `start` up to `end`, bytes of the text, and how they are to be
/// shaped. The characters from `before` up to `start` and from `end` up to `after` stand beside it,
/// and are looked at alone. `glyphs` is written: how many glyphs there are up to the end of this
/// run.
#[repr(C)]
#[derive(Clone, Copy)]
pub struct luthgarn_run {
    pub before: u32,
    pub start: u32,
    pub end: u32,
    pub after: u32,
    pub direction: u32,
    pub script: u32,
    pub flags: u32,
    pub level: u32,
    pub language: [u8; 64],
    pub glyphs: usize,
}

/// A glyph and its place: `cluster` is the first byte of its characters, counted from the start of
/// the run.
#[repr(C)]
#[derive(Clone, Copy)]
pub struct luthgarn_glyph {
    pub glyph: u32,
    pub cluster: u32,
    pub flags: u32,
    pub x_advance: i32,
    pub y_advance: i32,
    pub x_offset: i32,
    pub y_offset: i32,
}

/// What became of a call: why it stopped, how many runs are done, and how many glyphs these have.
/// `needed` is how many glyphs the run has that found no room.
#[repr(C)]
#[derive(Clone, Copy)]
pub struct luthgarn_outcome {
    pub code: u32,
    pub runs: usize,
    pub glyphs: usize,
    pub needed: usize,
}

impl luthgarn_outcome {
    /// Nothing was done.
    pub fn refused(refusal: Refusal) -> Self
        ensures code { result.code ≡ code_of refusal }
        ensures runs { result.runs ≡ 0 }
        ensures glyphs { result.glyphs ≡ 0 }
        ensures needed { result.needed ≡ 0 }
    {
        luthgarn_outcome {
            code: refusal.code(),
            runs: 0,
            glyphs: 0,
            needed: 0,
        }
    }
}

impl luthgarn_feature {
    /// The feature as C sees it.
    pub fn of(feature: Feature) -> Self
        ensures { feature_of_c result ≡ feature }
    {
        luthgarn_feature {
            tag: feature.tag.0,
            value: feature.value,
            start: feature.start,
            end: feature.end,
        }
    }

    /// The feature.
    fn feature(&self) -> Feature
        ensures { result ≡ feature_of_c self.now }
    {
        Feature {
            tag: hb_tag_t(self.tag),
            value: self.value,
            start: self.start,
            end: self.end,
        }
    }
}

/// The features that C asks for. Refuses with `Memory` alone.
pub fn features_of(alloc: Global, features: &[luthgarn_feature]) -> Result<Vec<Feature>, Refusal>
    ensures { MatchResult result (λ list. list.items ≡ map feature_of_c features.now)
        (λ refusal. refusal ≡ Refusal.Memory) }
{
    let mut list = Vec::new(alloc);
    for feature in features {
        list.push(feature.feature())?;
    }
    Ok(list)
}

impl luthgarn_glyph {
    /// The glyph as C sees it.
    pub fn of(info: &hb_glyph_info_t, position: &GlyphPosition) -> Self
        ensures { result ≡ glyph_of (info.now, position.now) }
    {
        luthgarn_glyph {
            glyph: info.glyph_id,
            cluster: info.cluster,
            flags: info.mask % 8,
            x_advance: position.x_advance,
            y_advance: position.y_advance,
            x_offset: position.x_offset,
            y_offset: position.y_offset,
        }
    }
}

/// The number of a direction, as HarfBuzz has it; 0 stands for none.
pub fn direction_code(direction: Direction) -> u32
    ensures { result ≡ direction_number direction }
{
    match direction {
        Direction::Invalid => 0,
        Direction::LeftToRight => 4,
        Direction::RightToLeft => 5,
        Direction::TopToBottom => 6,
        Direction::BottomToTop => 7,
    }
}

/// The direction with a number: none for 0.
pub fn direction(number: u32) -> Result<Direction, Refusal>
    ensures ok { IfOk result (λ d. (d ≡ direction_of number) × (is_direction number ≡ true)) }
    ensures err { IfErr result (λ e. (e ≡ Refusal.Run) × (is_direction number ≡ false)) }
{
    match number {
        0 => Ok(Direction::Invalid),
        4 => Ok(Direction::LeftToRight),
        5 => Ok(Direction::RightToLeft),
        6 => Ok(Direction::TopToBottom),
        7 => Ok(Direction::BottomToTop),
        _ => Err(Refusal::Run),
    }
}

/// The script with a number: none for 0.
pub fn script(number: u32) -> Option<Script>
    ensures { result ≡ script_of number }
{
    if number == 0 {
        return None;
    }
    Some(Script(hb_tag_t(number)))
}

/// The level with a number.
pub fn level(number: u32) -> Result<BufferClusterLevel, Refusal>
    ensures ok { IfOk result (λ l. (l ≡ level_of number) × (is_level number ≡ true)) }
    ensures err { IfErr result (λ e. (e ≡ Refusal.Run) × (is_level number ≡ false)) }
{
    match number {
        0 => Ok(BufferClusterLevel::MonotoneGraphemes),
        1 => Ok(BufferClusterLevel::MonotoneCharacters),
        2 => Ok(BufferClusterLevel::Characters),
        _ => Err(Refusal::Run),
    }
}
