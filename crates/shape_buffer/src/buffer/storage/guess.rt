//! Guessing what a caller left open: the script of a text and its direction.
//!
//! What guessing would set can be read without setting it: a plan is made, and fits, by that.
ghost use Rattle.std.specs.Prelude.{◌≡◌};
ghost use Rattle.shape_buffer.specs.Guess;

use crate::buffer::storage::hb_buffer_t;
use shape_common::{Direction, Script, hb_unicode_funcs_t};
use shape_items::hb_glyph_info_t;

impl hb_buffer_t {
    /// The script of the text as guessing would set it: the one that is set, else the first of its
    /// characters' scripts that is neither Common nor Inherited nor Unknown.
    pub fn guessed_script<U: hb_unicode_funcs_t>(&self) -> Option<Script>
        ensures { result ≡ Guess.guessed_script U.unicode self.now }
    {
        self.script
            .or_else(|| first_script::<U>(self.infos.as_slice()))
    }

    /// The direction of the text as guessing would set it: the one that is set, else that of the
    /// guessed script, else left to right.
    pub fn guessed_direction<U: hb_unicode_funcs_t>(&self) -> Direction
        ensures { result ≡ Guess.guessed_direction U.unicode self.now }
    {
        if self.direction != Direction::Invalid {
            return self.direction;
        }
        self.direction_by::<U>(self.guessed_script::<U>())
    }

    /// The direction of the text as guessing would set it, if its guessed script is known: the one
    /// that is set, else that of the script, else left to right. The characters aren't gone over
    /// again.
    pub fn direction_by<U: hb_unicode_funcs_t>(&self, script: Option<Script>) -> Direction
        ensures { result ≡ Guess.direction_or self.now.direction
            (Guess.script_or_ltr U.unicode script) }
    {
        if self.direction != Direction::Invalid {
            return self.direction;
        }
        native_direction::<U>(script)
    }

    /// Sets script and direction by guessing, if they aren't set.
    pub fn guess_segment_properties<U: hb_unicode_funcs_t>(&mut self)
        ensures { self.new ≡ Guess.guessed U.unicode self.old }
    {
        let script = self.guessed_script::<U>();
        let direction = self.direction_by::<U>(script);
        self.script = script;
        self.direction = direction;
    }
}

/// The first script of the characters that says something.
fn first_script<U: hb_unicode_funcs_t>(infos: &[hb_glyph_info_t]) -> Option<Script>
    ensures { result ≡ Guess.first_script U.unicode infos.now }
{
    infos
        .iter()
        .map(|info| U::script(info.codepoint))
        .find(|script| script.is_specific())
}

/// The direction of a script, left to right if none is known.
fn native_direction<U: hb_unicode_funcs_t>(script: Option<Script>) -> Direction
    ensures { result ≡ Guess.script_or_ltr U.unicode script }
{
    let Some(script) = script else {
        return Direction::LeftToRight;
    };
    match U::script_direction(script) {
        None | Some(Direction::Invalid) => Direction::LeftToRight,
        Some(direction) => direction,
    }
}
