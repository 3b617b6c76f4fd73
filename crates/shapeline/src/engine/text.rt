//! The line `text C ..`: shapes the characters, and prints what became of them.
//!
//! The second buffer is planned for anew, so that the plan fits by its own words and a text
//! without a script stays without one.
ghost use Rattle.std.specs.Prelude.{◌≡◌, ◌≢◌, [], IfOk, IsOkUnless};
ghost use Rattle.std.specs.Option.{SomeIff};
ghost use Rattle.shape_items.specs.Buffer.{new_buffer};
ghost use Rattle.shape_buffer.specs.Text.{items_from};
ghost use Rattle.shape_sessions.specs.Lines.{IsAnswered};
ghost use Rattle.shape_sessions.specs.Text.{IsText, characters, utf8_len};
ghost use Rattle.shape_sessions.specs.Words as word_rules;

use crate::engine::answers;
use crate::engine::shapers::{ShaperTask, with_shaper};
use shape_buffer::buffer::{Direction, ShapeError, UnicodeBuffer, hb_buffer_t};
use shape_buffer::interfaces::{MapFace, NoLookups};
use shape_pipeline::ot_shape_plan::hb_ot_shape_plan_t;
use shape_pipeline::ot_shaper::hb_ot_shaper_t;
use shape_sessions::outcome::Outcome;
use shape_sessions::parse::{Words, character};
use shape_sessions::printing::{append_glyphs, append_items};
use shape_sessions::session::TextSettings;
use shape_sessions::unicode_tables::UnicodeTables;
use std::alloc::Global;
use std::io;
use std::io::Write;

/// Shapes a text and writes what is printed for it, or the number of the refusal. Malformed if a
/// word is no character, or if 32 bits can't count the bytes in UTF-8.
pub fn answer<W: Write>(
    alloc: Global,
    face: &MapFace,
    text_settings: TextSettings,
    words: Words,
    writer: &mut W,
) -> Outcome
    ensures { IsAnswered (IsText (word_rules.words words.entry.rest.now)) result }
{
    if text_len(words).is_none() {
        return Outcome::Malformed;
    }
    let written = match lines(alloc, face, text_settings, words) {
        Ok(lines) => writer.write_all(lines.as_bytes()),
        Err(cause) => write_refusal(cause, writer),
    };
    match written {
        Ok(()) => Outcome::Done,
        Err(_) => Outcome::WriteFailed,
    }
}

/// Writes the number of a refusal. Takes no memory.
pub(super) fn write_refusal<W: Write>(cause: ShapeError, writer: &mut W) -> io::Result<()> {
    match cause {
        ShapeError::Memory => writer.write_all(b"refused 1\n"),
        ShapeError::Length => writer.write_all(b"refused 2\n"),
    }
}

/// How many bytes a text takes in UTF-8, if each word is a character and 32 bits can count them.
/// Takes no memory, so that a malformed text is malformed however little there is.
pub(super) fn text_len(words: Words) -> Option<u32>
    ensures { SomeIff result (IsText (word_rules.words words.entry.rest.now))
        (utf8_len (word_rules.words words.entry.rest.now)) }
{
    let mut len: u32 = 0;
    for word in words {
        len = len.checked_add(character(word)?.len_utf8() as u32)?;
    }
    Some(len)
}

/// A buffer with a text, whose clusters are byte offsets in UTF-8, to be shaped as lines have set
/// it. Refuses with `Memory` if a growth was refused.
pub(super) fn filled(
    alloc: Global,
    text_settings: TextSettings,
    words: Words,
) -> Result<UnicodeBuffer, ShapeError>
    requires { IsText (word_rules.words words.rest.now) }
    ensures items { IfOk result (λ buffer. buffer.items
        ≡ items_from 0 (characters (word_rules.words words.entry.rest.now))) }
    ensures settings { IfOk result (λ buffer. record buffer { items = []; positions = [] }
        ≡ record new_buffer {
          direction = text_settings.direction;
          flags = text_settings.flags;
          cluster_level = text_settings.level;
        }) }
    ensures memory { IsOkUnless result ShapeError.Memory }
{
    let mut buffer = UnicodeBuffer::new(alloc);
    let mut offset: u32 = 0;
    for word in words {
        if let Some(c) = character(word) {
            buffer.add(c, offset)?;
            offset = offset.saturating_add(c.len_utf8() as u32);
        }
    }
    buffer.set_direction(text_settings.direction);
    buffer.set_flags(text_settings.flags);
    buffer.set_cluster_level(text_settings.level);
    Ok(buffer)
}

/// The lines that are printed for a text.
fn lines(
    alloc: Global,
    face: &MapFace,
    text_settings: TextSettings,
    words: Words,
) -> Result<String, ShapeError>
    requires { IsText (word_rules.words words.rest.now) }
{
    let text = filled(alloc, text_settings, words)?;
    let again = filled(alloc, text_settings, words)?;
    with_shaper(
        text_settings.mode,
        Answering {
            alloc,
            face,
            text,
            again,
        },
    )
}

/// A text whose lists are asked for, and the same text again, whose glyphs are: a run to the end
/// leaves no list before the last one.
struct Answering<'a> {
    alloc: Global,
    face: &'a MapFace,
    text: UnicodeBuffer,
    again: UnicodeBuffer,
}

impl ShaperTask for Answering<'_> {
    type Answer = Result<String, ShapeError>;

    fn run<S: hb_ot_shaper_t<UnicodeTables, MapFace, NoLookups>>(
        self,
        shaper: &S,
    ) -> Result<String, ShapeError> {
        let Answering {
            alloc,
            face,
            text,
            again,
        } = self;
        let lists = listed(alloc, face, shaper, text)?;
        shaped(alloc, face, shaper, again, lists)
    }
}

/// The lists of a text, prepared and normalised under a plan of its own.
fn listed<S>(
    alloc: Global,
    face: &MapFace,
    shaper: &S,
    mut text: UnicodeBuffer,
) -> Result<String, ShapeError>
where
    S: hb_ot_shaper_t<UnicodeTables, MapFace, NoLookups>,
{
    let plan = answers::planned(alloc, face, shaper, &mut text)?;
    listed_under(alloc, &plan, face, text.into_inner())
}

/// The lists of the text of a buffer, prepared and normalised under a plan.
fn listed_under<S>(
    alloc: Global,
    plan: &hb_ot_shape_plan_t<'_, S, (), S::Data>,
    face: &MapFace,
    mut buffer: hb_buffer_t,
) -> Result<String, ShapeError>
where
    S: hb_ot_shaper_t<UnicodeTables, MapFace, NoLookups>,
    requires { buffer.direction ≢ Direction.Invalid }
{
    let mut lines = String::new(alloc);
    answers::prepare(alloc, plan, face, &mut buffer)?;
    append_items(&mut lines, "prepared", buffer.infos())?;
    answers::normalize(alloc, plan, face, &mut buffer)?;
    append_items(&mut lines, "normal", buffer.infos())?;
    Ok(lines)
}

/// Lines, with the glyphs of a text after them, shaped under a plan of its own.
fn shaped<S>(
    alloc: Global,
    face: &MapFace,
    shaper: &S,
    mut text: UnicodeBuffer,
    mut lines: String,
) -> Result<String, ShapeError>
where
    S: hb_ot_shaper_t<UnicodeTables, MapFace, NoLookups>,
{
    let plan = answers::planned(alloc, face, shaper, &mut text)?;
    let glyphs = answers::shape(alloc, &plan, face, text)?;
    append_glyphs(&mut lines, glyphs.glyph_infos(), glyphs.glyph_positions())?;
    Ok(lines)
}
