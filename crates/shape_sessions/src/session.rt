//! What the lines so far have set.
//!
//! The state after a line is a function of the state before it and of the line's words: each
//! command sets one thing, a malformed line nothing, and lines that ask for output leave the state.
//!
//! Its setters are public, one for each line that sets something, and the program chooses among
//! them: a line that asks for glyphs needs the pipeline, which a session doesn't know.
ghost use Rattle.std.specs.Prelude.{◌≡◌, Some, MatchOption};
ghost use Rattle.std.specs.Str.{IsUtf8};
ghost use Rattle.shape_sessions.specs.Lines.{IsObeyed, line_words};
ghost use Rattle.shape_sessions.specs.State.{IsMeant, set_by, start};
ghost use Rattle.shape_sessions.specs.Words as word_rules;

use crate::command::Command;
use crate::mode::Mode;
use crate::outcome::Outcome;
use crate::parse::Words;
use crate::settings;
use shape_buffer::buffer::{BufferClusterLevel, BufferFlags, Direction};
use shape_buffer::interfaces::MapFace;
use std::alloc::Global;
use std::marker::Model;
use std::str;

/// The units per em of the face at the start.
const UNITS_PER_EM: u16 = 1000;

/// How texts are shaped, as lines have set it. The direction is Invalid if it is to be guessed.
#[derive(Clone, Copy)]
pub struct TextSettings {
    pub mode: Mode,
    pub level: BufferClusterLevel,
    pub direction: Direction,
    pub flags: BufferFlags,
}

/// The face that lines have made, and how texts are shaped with it.
#[derive(Drop)]
pub struct Session {
    face: MapFace,
    text_settings: TextSettings,
}

impl Model for Session {
    ghost use Rattle.shape_sessions.specs.State.{State};

    ghost Value = { State };

    ghost view = { λ s. record {
      units_per_em = s.face.units_per_em;
      glyphs = s.face.glyphs.entries;
      metrics = s.face.metrics.entries;
      mode = s.text_settings.mode;
      level = s.text_settings.level;
      direction = s.text_settings.direction;
      flags = s.text_settings.flags;
    } };
}

/// The words of a line in UTF-8. It may end with a line feed, before which a carriage return may
/// stand. Refuses a line that isn't in UTF-8.
pub fn words_of_line(line: &[u8]) -> Option<Words<'_>>
    ensures { MatchOption result
        (¬ IsUtf8 line.now)
        (λ words. IsUtf8 line.now × (word_rules.words words.rest.now ≡ line_words line.now)) }
{
    let Ok(line) = str::from_utf8(line) else {
        return None;
    };
    let line = line.strip_suffix('\n').unwrap_or(line);
    let line = line.strip_suffix('\r').unwrap_or(line);
    Some(Words::new(line))
}

impl Session {
    /// What is set before the first line.
    pub fn new(alloc: Global) -> Session
        ensures { result ≡ start }
    {
        Session {
            face: MapFace::new(alloc, UNITS_PER_EM),
            text_settings: TextSettings {
                mode: Mode::Auto,
                level: BufferClusterLevel::MonotoneGraphemes,
                direction: Direction::Invalid,
                flags: BufferFlags(0),
            },
        }
    }

    /// The face that lines have made.
    pub fn face(&self) -> &MapFace
        ensures units_per_em { result.now.units_per_em ≡ self.now.units_per_em }
        ensures glyphs { result.now.glyphs.entries ≡ self.now.glyphs }
        ensures metrics { result.now.metrics.entries ≡ self.now.metrics }
    {
        &self.face
    }

    /// How texts are shaped, as lines have set it.
    pub fn text_settings(&self) -> TextSettings
        ensures { result ≡ record {
          mode = self.now.mode;
          level = self.now.level;
          direction = self.now.direction;
          flags = self.now.flags;
        } }
    {
        self.text_settings
    }

    /// `face U`: an empty face of U units per em.
    pub fn set_face(&mut self, alloc: Global, words: Words) -> Outcome
        ensures { IsObeyed (Some Command.Face)
            (IsMeant Command.Face (word_rules.words words.entry.rest.now)) self.old
            (set_by Command.Face (word_rules.words words.entry.rest.now) self.old) result self.new }
    {
        let Some(units_per_em) = settings::units_per_em(words) else {
            return Outcome::Malformed;
        };
        self.face = MapFace::new(alloc, units_per_em);
        Outcome::Done
    }

    /// `glyph C I A ..`: the character C has glyph I, whose advance is A, and perhaps its extents.
    /// Out of memory if a growth was refused; then the character keeps the glyph that it had.
    pub fn set_glyph(&mut self, words: Words) -> Outcome
        ensures { IsObeyed (Some Command.Glyph)
            (IsMeant Command.Glyph (word_rules.words words.entry.rest.now)) self.old
            (set_by Command.Glyph
            (word_rules.words words.entry.rest.now) self.old) result self.new }
    {
        let Some(said) = settings::glyph(words) else {
            return Outcome::Malformed;
        };
        match self.face.set_glyph(said.c, said.glyph, said.metrics) {
            Ok(()) => Outcome::Done,
            Err(_) => Outcome::OutOfMemory,
        }
    }

    /// `mode M`: how texts are normalised.
    pub fn set_mode(&mut self, words: Words) -> Outcome
        ensures { IsObeyed (Some Command.Mode)
            (IsMeant Command.Mode (word_rules.words words.entry.rest.now)) self.old
            (set_by Command.Mode (word_rules.words words.entry.rest.now) self.old) result self.new }
    {
        let Some(mode) = settings::mode(words) else {
            return Outcome::Malformed;
        };
        self.text_settings.mode = mode;
        Outcome::Done
    }

    /// `level N`: how far clusters are merged.
    pub fn set_level(&mut self, words: Words) -> Outcome
        ensures { IsObeyed (Some Command.Level)
            (IsMeant Command.Level (word_rules.words words.entry.rest.now)) self.old
            (set_by Command.Level
            (word_rules.words words.entry.rest.now) self.old) result self.new }
    {
        let Some(level) = settings::level(words) else {
            return Outcome::Malformed;
        };
        self.text_settings.level = level;
        Outcome::Done
    }

    /// `dir D`: the direction that texts run in.
    pub fn set_direction(&mut self, words: Words) -> Outcome
        ensures { IsObeyed (Some Command.Dir)
            (IsMeant Command.Dir (word_rules.words words.entry.rest.now)) self.old
            (set_by Command.Dir (word_rules.words words.entry.rest.now) self.old) result self.new }
    {
        let Some(direction) = settings::direction(words) else {
            return Outcome::Malformed;
        };
        self.text_settings.direction = direction;
        Outcome::Done
    }

    /// `flags N`: what is asked of a run.
    pub fn set_flags(&mut self, words: Words) -> Outcome
        ensures { IsObeyed (Some Command.Flags)
            (IsMeant Command.Flags (word_rules.words words.entry.rest.now)) self.old
            (set_by Command.Flags
            (word_rules.words words.entry.rest.now) self.old) result self.new }
    {
        let Some(flags) = settings::flags(words) else {
            return Outcome::Malformed;
        };
        self.text_settings.flags = flags;
        Outcome::Done
    }
}
