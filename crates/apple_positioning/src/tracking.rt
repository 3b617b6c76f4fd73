//! Tracking: how much wider or closer glyphs stand in a text of some point size, by the table
//! `trak`.
ghost use Rattle.std.specs.Prelude.{◌≡◌, ◌<◌, ◌≤◌, ◌-◌, ◌^◌, length};
ghost use Rattle.std.specs.Option.{IfSome};
ghost use Rattle.apple_positioning.specs.Tracking as tracking_rules;
ghost use Rattle.shape_buffer.specs.Outcome.{Made};
ghost use Rattle.shape_buffer.specs.PositionWalks.{positions_mapped};
ghost use Rattle.shape_font.specs.Search.{first_at};

use font_bytes::bytes::i32_at;
use font_sizes::Scale;
use font_variations::deltas::rounded;
use shape_buffer::buffer::{GlyphPosition, hb_buffer_t, hb_glyph_info_t, hb_mask_t};
use shape_buffer::position_walks::update_positions;
use shape_buffer::wrapping::{half, sum};
use shape_font::bytes::{i16_at, records, u16_at, u32_at};
use std::num::nearest_i32_to_f32;

/// 1 as a number of 16.16 bits.
pub const FIXED_ONE: f32 = 65536.0;

/// No points.
pub const NO_SIZE: f32 = 0.0;

/// A whole part.
pub const WHOLE: f32 = 1.0;

/// Whether a table is of the version that is read.
pub fn has_tracking(trak: &[u8]) -> bool
    ensures { result ≡ tracking_rules.has_tracking trak.now }
{
    u16_at(trak, 0) == 1
}

/// Where the data for lines of a kind begin, 0 if there are none.
fn data_at(trak: &[u8], horizontal: bool) -> usize
    ensures value { result ≡ tracking_rules.data_of trak.now horizontal }
    ensures near { result < 2 ^ 16 }
{
    if horizontal {
        usize::from(u16_at(trak, 6))
    } else {
        usize::from(u16_at(trak, 8))
    }
}

/// How many tracks the data have.
fn track_count(trak: &[u8], start: usize) -> u32
    requires { start < 2 ^ 16 }
    ensures value { result ≡ tracking_rules.track_count trak.now start }
    ensures few { result < 2 ^ 16 }
{
    records(trak, u32::from(u16_at(trak, start)), start + 8, 8)
}

/// Whether a track is the normal one.
fn is_normal(trak: &[u8], start: usize, i: u32) -> bool
    requires near { start < 2 ^ 16 }
    requires few { i < 2 ^ 16 }
    ensures { result ≡ tracking_rules.is_normal trak.now start i }
{
    u32_at(trak, start + 8 + 8 * i as usize) == 0
}

/// The first track that is the normal one.
#[tactic(auto, using(shape_font::proofs::SearchLemmas::first_at_next, shape_font::proofs::SearchLemmas::first_at_found, shape_font::proofs::SearchLemmas::first_at_end))]
fn first_normal(trak: &[u8], start: usize, count: u32) -> Option<u32>
    requires near { start < 2 ^ 16 }
    requires few { count < 2 ^ 16 }
    ensures first { result ≡ first_at (tracking_rules.is_normal trak.now start) count 0 }
    ensures few { IfSome result (λ i. i < 2 ^ 16) }
{
    for i in 0..count {
        if is_normal(trak, start, i) {
            return Some(i);
        }
    }
    None
}

/// Where the values of the normal track begin.
fn normal_values(trak: &[u8], start: usize) -> Option<usize>
    requires { start < 2 ^ 16 }
    ensures value { result ≡ tracking_rules.normal_values trak.now start }
    ensures near { IfSome result (λ at. at < 2 ^ 16) }
{
    let i = first_normal(trak, start, track_count(trak, start))?;
    Some(usize::from(u16_at(trak, start + 14 + 8 * i as usize)))
}

/// The sizes that data have values for.
#[derive(Clone, Copy)]
struct Sizes<'a> {
    trak: &'a [u8],
    at: usize,
    count: u32,
}

/// The sizes of the data.
fn sizes_of<'a>(trak: &'a [u8], start: usize) -> Sizes<'a>
    requires { start < 2 ^ 16 }
    ensures table { result.trak.now ≡ trak.now }
    ensures place { result.at ≡ tracking_rules.sizes_at trak.now start }
    ensures near { result.at < 2 ^ 32 }
    ensures count { result.count ≡ tracking_rules.size_count trak.now start }
    ensures few { result.count < 2 ^ 16 }
{
    let at = u32_at(trak, start + 4) as usize;
    let said = u32::from(u16_at(trak, start + 2));
    Sizes {
        trak,
        at,
        count: records(trak, said, at, 4),
    }
}

/// One of the sizes, in points.
#[tactic(auto, unfolding(crate::specs::Tracking::size_of))]
fn size_at(sizes: Sizes<'_>, i: u32) -> f32
    requires near { sizes.at < 2 ^ 32 }
    requires few { i < 2 ^ 17 }
    ensures { result ≡ tracking_rules.size_of sizes.entry.trak.now sizes.entry.at i }
{
    nearest_i32_to_f32(i32_at(sizes.trak, sizes.at + 4 * i as usize)) / FIXED_ONE
}

/// The first size before the last one that isn't below a point size.
#[tactic(auto, using(shape_font::proofs::SearchLemmas::first_at_next, shape_font::proofs::SearchLemmas::first_at_found, shape_font::proofs::SearchLemmas::first_at_end))]
fn first_reached(sizes: Sizes<'_>, most: u32, points: f32) -> Option<u32>
    requires near { sizes.at < 2 ^ 32 }
    requires few { most < 2 ^ 16 }
    ensures first { result ≡ first_at
        (tracking_rules.is_reached sizes.entry.trak.now sizes.entry.at points) most 0 }
    ensures few { IfSome result (λ i. i < most) }
{
    for i in 0..most {
        if points <= size_at(sizes, i) {
            return Some(i);
        }
    }
    None
}

/// The first of the two sizes between which a value is interpolated.
fn size_before(sizes: Sizes<'_>, points: f32) -> u32
    requires near { sizes.at < 2 ^ 32 }
    requires few { sizes.count < 2 ^ 16 }
    ensures value { result ≡ tracking_rules.size_before sizes.entry.trak.now sizes.entry.at
        sizes.entry.count points }
    ensures few { result < 2 ^ 16 }
{
    let last = sizes.count.saturating_sub(1);
    match first_reached(sizes, last, points) {
        Some(i) => i.saturating_sub(1),
        None => last.saturating_sub(1),
    }
}

/// How far a point size lies from one size to the next, as a part of the way.
#[tactic(auto, unfolding(crate::specs::Tracking::part))]
fn part(from: f32, to: f32, points: f32) -> f32
    ensures { result ≡ tracking_rules.part from to points }
{
    if from == to {
        return NO_SIZE;
    }
    (points - from) / (to - from)
}

/// A value on the way from one to the next, to the nearest integer, halves upwards.
#[tactic(auto, unfolding(crate::specs::Tracking::between))]
fn between(from: i32, to: i32, part: f32) -> i32
    ensures { result ≡ tracking_rules.between from to part }
{
    let far = part * nearest_i32_to_f32(to);
    let near = (WHOLE - part) * nearest_i32_to_f32(from);
    rounded(far + near)
}

/// The value of a track for a point size, between those of two sizes.
fn interpolated(sizes: Sizes<'_>, values: usize, points: f32) -> i32
    requires near { sizes.at < 2 ^ 32 }
    requires few { sizes.count < 2 ^ 16 }
    requires values { values < 2 ^ 16 }
    ensures { result ≡ tracking_rules.interpolated sizes.entry.trak.now sizes.entry.at
        sizes.entry.count values points }
{
    let i = size_before(sizes, points);
    let at = values + 2 * i as usize;
    between(
        i16_at(sizes.trak, at),
        i16_at(sizes.trak, at + 2),
        part(size_at(sizes, i), size_at(sizes, i + 1), points),
    )
}

/// The value of a track for a point size: that of the only size, or one between those of two sizes.
fn value_at(sizes: Sizes<'_>, values: usize, points: f32) -> i32
    requires near { sizes.at < 2 ^ 32 }
    requires few { sizes.count < 2 ^ 16 }
    requires values { values < 2 ^ 16 }
    ensures { result ≡ tracking_rules.value_of sizes.entry.trak.now sizes.entry.at
        sizes.entry.count values points }
{
    match sizes.count {
        0 => 0,
        1 => i16_at(sizes.trak, values),
        _ => interpolated(sizes, values, points),
    }
}

/// How much wider the glyphs of lines of a kind stand at a point size, in units of the em square;
/// closer if it is negative. 0 if the table has no data for such lines, or no normal track, or the
/// point size isn't above 0.
pub fn tracking(trak: &[u8], horizontal: bool, points: f32) -> i32
    ensures { result ≡ tracking_rules.tracking_of trak.now horizontal points }
{
    let start = data_at(trak, horizontal);
    if !has_tracking(trak) || start == 0 || points <= NO_SIZE {
        return 0;
    }
    match normal_values(trak, start) {
        Some(values) => value_at(sizes_of(trak, start), values, points),
        None => 0,
    }
}

/// By how much glyphs of a run stand wider along the line.
#[derive(Clone, Copy, Debug)]
pub struct Spacing {
    /// Whether the line is horizontal.
    pub along: bool,
    /// What is added to an advance.
    pub advance: i32,
    /// How far a glyph is moved.
    pub offset: i32,
}

/// A number along the line at the size of the font, which is multiplied in binary32.
#[tactic(auto, unfolding(crate::specs::Tracking::scaled))]
fn scaled(scale: Option<Scale>, along: bool, n: i32) -> i32
    ensures { result ≡ tracking_rules.scaled scale along n }
{
    let Some(scale) = scale else {
        return rounded(nearest_i32_to_f32(n));
    };
    let axis = if along { scale.across } else { scale.up };
    rounded(axis.real(n))
}

/// What tracking adds to advances and offsets: half of it, towards 0, is scaled by itself.
fn spacing_by(scale: Option<Scale>, along: bool, by: i32) -> Spacing
    ensures { result ≡ tracking_rules.spacing_of scale along by }
{
    Spacing {
        along,
        advance: scaled(scale, along, by),
        offset: scaled(scale, along, half(by)),
    }
}

/// A position that is wider along the line, with its glyph in the middle.
fn moved(spacing: Spacing, position: GlyphPosition) -> GlyphPosition
    ensures { result ≡ tracking_rules.moved spacing position }
{
    let mut position = position;
    if spacing.along {
        position.x_advance = sum(position.x_advance, spacing.advance);
        position.x_offset = sum(position.x_offset, spacing.offset);
    } else {
        position.y_advance = sum(position.y_advance, spacing.advance);
        position.y_offset = sum(position.y_offset, spacing.offset);
    }
    position
}

/// Whether features have tracking on for a glyph.
fn is_tracked(mask: hb_mask_t, item: &hb_glyph_info_t) -> bool
    ensures { result ≡ tracking_rules.is_tracked mask item.now }
{
    item.mask & mask != 0
}

/// The position of a glyph that may begin a grapheme.
fn start_moved(
    spacing: Spacing,
    mask: hb_mask_t,
    item: &hb_glyph_info_t,
    position: GlyphPosition,
) -> GlyphPosition
    ensures { result ≡ tracking_rules.start_moved spacing mask item.now position }
{
    if is_tracked(mask, item) && !item._hb_glyph_info_get_continuation() {
        moved(spacing, position)
    } else {
        position
    }
}

/// Moves the glyphs that continue no grapheme.
fn move_starts(spacing: Spacing, mask: hb_mask_t, buffer: &mut hb_buffer_t)
    ensures { Made (positions_mapped (tracking_rules.start_moved spacing mask))
        buffer.old buffer.new }
{
    update_positions(buffer, |info, position| {
        start_moved(spacing, mask, info, position)
    });
}

/// Moves the first glyph of the list if it continues a grapheme: it begins one all the same.
fn move_first(spacing: Spacing, mask: hb_mask_t, buffer: &mut hb_buffer_t)
    ensures { Made (tracking_rules.first_moved spacing mask) buffer.old buffer.new }
{
    if buffer.len() == 0 {
        return;
    }
    let item = buffer.infos()[0];
    if is_tracked(mask, &item) && item._hb_glyph_info_get_continuation() {
        let position = moved(spacing, buffer.positions()[0]);
        buffer.set_position(0, position);
    }
}

/// Moves the glyphs of a run by the tracking of a point size, grapheme by grapheme: the first glyph
/// of each for which the mask has tracking on becomes wider, and half of that, towards 0, is added
/// to its offset. Both are scaled if the font has a size, each by itself. Takes no memory, and
/// refuses nothing.
#[tactic(auto, unfolding(crate::specs::Tracking::run_tracked))]
pub fn track_run(
    trak: &[u8],
    scale: Option<Scale>,
    points: f32,
    mask: hb_mask_t,
    buffer: &mut hb_buffer_t,
)
    ensures { Made (tracking_rules.run_tracked trak.now scale points mask) buffer.old buffer.new }
{
    let along = buffer.direction().is_horizontal();
    let spacing = spacing_by(scale, along, tracking(trak, along, points));
    move_starts(spacing, mask, buffer);
    move_first(spacing, mask, buffer);
}
