//! What these tests shape with: faces of a few characters, and the whole database of Unicode.
use bitflags::Flags;
use script_shapers::{ArabicShaper, HebrewShaper};
use shape_pipeline::lines::{Line, can_cut, cut_lines};
use shape_pipeline::ot_shape_plan::hb_ot_shape_plan_t;
use shape_pipeline::ot_shaper::Decomposed;
use shape_pipeline::{
    BufferClusterLevel, BufferFlags, DEFAULT_SHAPER, Direction, GlyphBuffer, GlyphId, MapFace,
    Metrics, NoLookups, Preferring, Script, UnicodeBuffer, hb_ot_layout_t, hb_ot_shaper_t,
    hb_tag_t, shape,
};
use shape_unicode::UnicodeDatabase;
use shape_users::capitals::CapitalsShaper;
use shape_users::ligatures::Ligatures;
use shaper_choice::shape_by_script;
use std::alloc::Global;
use std::process::Abort;
use test_fixtures::printing::append_glyph;

/// A face in which the characters of a text have glyphs, which are numbered from 1 in their order
/// and 500 wide.
pub fn face_of(rt: &impl Abort, alloc: Global, known: &str) -> MapFace {
    let mut face = MapFace::new(alloc, 1000);
    let mut glyph: u32 = 0;
    for c in known.chars() {
        glyph = glyph.saturating_add(1);
        let metrics = Metrics {
            advance: 500,
            extents: None,
        };
        face.set_glyph(c, GlyphId(glyph), metrics)
            .expect(rt, "memory");
    }
    face
}

/// The plan for texts of a direction and a script.
pub fn planned<'a, S>(
    rt: &impl Abort,
    alloc: Global,
    face: &'a MapFace,
    shaper: &'a S,
    direction: Direction,
    script: &[u8; 4],
) -> hb_ot_shape_plan_t<'a, S, (), ()>
where
    S: hb_ot_shaper_t<UnicodeDatabase, MapFace, NoLookups, Data = ()>,
{
    assert!(rt; direction != Direction::Invalid);
    hb_ot_shape_plan_t::new::<UnicodeDatabase, MapFace, NoLookups>(
        alloc,
        face,
        shaper,
        direction,
        Some(Script(hb_tag_t::from_bytes(script))),
        None,
        &[],
    )
    .expect(rt, "memory")
}

/// Who shapes a text. The functions below take this and no type, since the proof of a generic
/// function takes twice the time.
#[derive(Clone, Copy)]
pub enum Shaper {
    Default,
    /// The default shaper with the engine with ligatures.
    Ligatures,
    /// The default shaper in the mode that decomposes fully.
    Decomposed,
    Hebrew,
    Arabic,
    /// The one that the script of the text asks for.
    ByScript,
    /// The shaper that asks for a feature of capitals; no engine here has it.
    Capitals,
}

/// The two levels that keep clusters in order.
pub const IN_ORDER: [BufferClusterLevel; 2] = [
    BufferClusterLevel::MonotoneGraphemes,
    BufferClusterLevel::MonotoneCharacters,
];

/// How texts are shaped.
#[derive(Clone, Copy)]
pub struct Shaping<'a> {
    pub face: &'a MapFace,
    pub shaper: Shaper,
    pub direction: Direction,
    pub level: BufferClusterLevel,
    pub script: Option<Script>,
    /// What stands before and after a text, which begins or ends if nothing does.
    pub around: Option<(&'a str, &'a str)>,
}

/// Shaping by graphemes, in the direction and the script of the text.
pub fn by_graphemes(face: &MapFace, shaper: Shaper) -> Shaping<'_> {
    Shaping {
        face,
        shaper,
        direction: Direction::Invalid,
        level: BufferClusterLevel::MonotoneGraphemes,
        script: None,
        around: None,
    }
}

/// The same in a direction and at a level.
pub fn towards(how: Shaping<'_>, direction: Direction, level: BufferClusterLevel) -> Shaping<'_> {
    Shaping {
        direction,
        level,
        ..how
    }
}

/// Tells a text what stands around it, and that it begins or ends if nothing does.
fn put_around(text: &mut UnicodeBuffer, before: &str, after: &str) {
    let mut flags = BufferFlags(0);
    if before.is_empty() {
        flags = flags.union(BufferFlags::BEGINNING_OF_TEXT);
    }
    if after.is_empty() {
        flags = flags.union(BufferFlags::END_OF_TEXT);
    }
    text.set_pre_context(before);
    text.set_post_context(after);
    text.set_flags(flags);
}

/// A text to be shaped so. Its clusters are the places of its bytes.
pub fn text_of(rt: &impl Abort, alloc: Global, how: Shaping<'_>, text: &str) -> UnicodeBuffer {
    assert!(rt; text.len() <= 1000);
    let mut buffer = UnicodeBuffer::new(alloc);
    buffer.push_str(text).expect(rt, "memory");
    buffer.set_direction(how.direction);
    buffer.set_script(how.script);
    buffer.set_cluster_level(how.level);
    if let Some((before, after)) = how.around {
        put_around(&mut buffer, before, after);
    }
    buffer
}

/// The glyphs of a text by an engine and a shaper.
fn shaped_by<M, S>(
    rt: &impl Abort,
    alloc: Global,
    how: Shaping<'_>,
    shaper: &S,
    text: &str,
) -> GlyphBuffer
where
    M: hb_ot_layout_t<MapFace>,
    S: hb_ot_shaper_t<UnicodeDatabase, MapFace, M>,
{
    let text = text_of(rt, alloc, how, text);
    shape::<UnicodeDatabase, MapFace, M, S>(alloc, how.face, shaper, &[], text).expect(rt, "glyphs")
}

/// The glyphs of a text by the shaper of its script.
fn shaped_by_script(rt: &impl Abort, alloc: Global, how: Shaping<'_>, text: &str) -> GlyphBuffer {
    let text = text_of(rt, alloc, how, text);
    shape_by_script::<UnicodeDatabase, MapFace, NoLookups>(alloc, how.face, &[], text).expect(
        rt, "glyphs",
    )
}

/// The glyphs of a text.
pub fn glyphs_of(rt: &impl Abort, alloc: Global, how: Shaping<'_>, text: &str) -> GlyphBuffer {
    match how.shaper {
        Shaper::Default => shaped_by::<NoLookups, _>(rt, alloc, how, &DEFAULT_SHAPER, text),
        Shaper::Ligatures => shaped_by::<Ligatures, _>(rt, alloc, how, &DEFAULT_SHAPER, text),
        Shaper::Decomposed => {
            let shaper = Preferring::<Decomposed>::new();
            shaped_by::<NoLookups, _>(rt, alloc, how, &shaper, text)
        }
        Shaper::Hebrew => shaped_by::<NoLookups, _>(rt, alloc, how, &HebrewShaper, text),
        Shaper::Arabic => shaped_by::<NoLookups, _>(rt, alloc, how, &ArabicShaper, text),
        Shaper::ByScript => shaped_by_script(rt, alloc, how, text),
        Shaper::Capitals => shaped_by::<NoLookups, _>(rt, alloc, how, &CapitalsShaper, text),
    }
}

/// Two parts of a text, the second from a place on.
pub fn split_at<'a>(rt: &impl Abort, text: &'a str, place: u32) -> (&'a str, &'a str) {
    text.split_at_checked(place as usize)
        .expect(rt, "a place between characters")
}

/// The lines of the glyphs of a text.
pub fn lines_of(
    rt: &impl Abort,
    alloc: Global,
    glyphs: &GlyphBuffer,
    text: &str,
    width: u32,
) -> Vec<Line> {
    assert!(rt; text.len() <= 1000);
    let text_end = text.len() as u32;
    assert!(rt; can_cut(glyphs, text_end));
    cut_lines(alloc, glyphs, text_end, width).expect(rt, "memory")
}

/// Prints the glyphs of a list from one place up to another, each with its cluster, as ` 1@0 2@3`.
pub fn print_glyphs(
    rt: &impl Abort,
    printed: &mut String,
    glyphs: &GlyphBuffer,
    (start, end): (usize, usize),
) {
    for place in start..end {
        let info = glyphs.glyph_infos().get(place).expect(rt, "a glyph");
        printed.push(' ').expect(rt, "memory");
        append_glyph(printed, info).expect(rt, "memory");
    }
}

/// Prints the glyphs of a text over a face of some characters (`face_of`), in the order of the
/// line.
pub fn print_shaped(
    rt: &impl Abort,
    alloc: Global,
    printed: &mut String,
    shaper: Shaper,
    known: &str,
    text: &str,
) {
    let face = face_of(rt, alloc, known);
    let glyphs = glyphs_of(rt, alloc, by_graphemes(&face, shaper), text);
    print_glyphs(rt, printed, &glyphs, (0, glyphs.len()));
}
