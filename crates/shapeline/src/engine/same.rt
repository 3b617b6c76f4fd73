//! The line `same C .. / C ..`: says whether two texts have the same normalised characters.
ghost use Rattle.shape_sessions.specs.Lines.{IsAnswered};
ghost use Rattle.shape_sessions.specs.Text.{IsText, IsPair};
ghost use Rattle.shape_sessions.specs.Words as word_rules;

use crate::engine::answers;
use crate::engine::shapers::{ShaperTask, with_shaper};
use crate::engine::text::{filled, text_len, write_refusal};
use shape_buffer::buffer::{Direction, Script, ShapeError, UnicodeBuffer};
use shape_buffer::interfaces::{MapFace, NoLookups};
use shape_pipeline::ot_shaper::hb_ot_shaper_t;
use shape_sessions::outcome::Outcome;
use shape_sessions::parse::Words;
use shape_sessions::session::TextSettings;
use shape_sessions::unicode_tables::UnicodeTables;
use std::alloc::Global;
use std::io::Write;

/// Compares two texts and writes the answer, or the number of the refusal. Malformed if no word `/`
/// parts the two, if a word of theirs is no character, or if 32 bits can't count the bytes of one
/// in UTF-8.
pub fn answer<W: Write>(
    alloc: Global,
    face: &MapFace,
    text_settings: TextSettings,
    words: Words,
    writer: &mut W,
) -> Outcome
    ensures { IsAnswered (IsPair (word_rules.words words.entry.rest.now)) result }
{
    let Some((first, second)) = words.parted() else {
        return Outcome::Malformed;
    };
    if text_len(first).is_none() || text_len(second).is_none() {
        return Outcome::Malformed;
    }
    let written = match are_same(alloc, face, text_settings, first, second) {
        Ok(true) => writer.write_all(b"same yes\n"),
        Ok(false) => writer.write_all(b"same no\n"),
        Err(cause) => write_refusal(cause, writer),
    };
    match written {
        Ok(()) => Outcome::Done,
        Err(_) => Outcome::WriteFailed,
    }
}

/// Whether two texts have the same characters once they are normalised as lines have set it.
fn are_same(
    alloc: Global,
    face: &MapFace,
    text_settings: TextSettings,
    first: Words,
    second: Words,
) -> Result<bool, ShapeError>
    requires first { IsText (word_rules.words first.rest.now) }
    requires second { IsText (word_rules.words second.rest.now) }
{
    let a = in_common(alloc, text_settings, first)?;
    let b = in_common(alloc, text_settings, second)?;
    with_shaper(text_settings.mode, Comparing { alloc, face, a, b })
}

/// A buffer with a text in the script Common, which runs from left to right if lines have left it
/// open.
fn in_common(
    alloc: Global,
    text_settings: TextSettings,
    words: Words,
) -> Result<UnicodeBuffer, ShapeError>
    requires { IsText (word_rules.words words.rest.now) }
{
    let mut text = filled(alloc, text_settings, words)?;
    if text.direction() == Direction::Invalid {
        text.set_direction(Direction::LeftToRight);
    }
    text.set_script(Some(Script::COMMON));
    Ok(text)
}

/// Two texts to be compared under one plan.
struct Comparing<'a> {
    alloc: Global,
    face: &'a MapFace,
    a: UnicodeBuffer,
    b: UnicodeBuffer,
}

impl ShaperTask for Comparing<'_> {
    type Answer = Result<bool, ShapeError>;

    fn run<S: hb_ot_shaper_t<UnicodeTables, MapFace, NoLookups>>(
        self,
        shaper: &S,
    ) -> Result<bool, ShapeError> {
        let Comparing {
            alloc,
            face,
            mut a,
            mut b,
        } = self;
        let plan = answers::planned(alloc, face, shaper, &mut a)?;
        answers::guess(&mut b);
        let (mut a, mut b) = (a.into_inner(), b.into_inner());
        answers::prepare(alloc, &plan, face, &mut a)?;
        answers::prepare(alloc, &plan, face, &mut b)?;
        answers::are_same(alloc, &plan, face, &mut a, &mut b)
    }
}
