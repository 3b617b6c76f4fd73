//! The words that say what a line is about.
ghost use Rattle.std.specs.Prelude.{◌≡◌};
ghost use Rattle.shape_sessions.specs.Commands.{command_of, direction_of};

use shape_buffer::buffer::Direction;

/// What a line sets or does.
#[derive(Clone, Copy)]
pub enum Command {
    Face,
    Glyph,
    Mode,
    Level,
    Dir,
    Flags,
    Text,
    Same,
    Lines,
}

impl Command {
    /// What a line that begins with a word is about. Refuses every word but these nine.
    pub fn from_word(word: &str) -> Option<Command>
        ensures { result ≡ command_of word.now }
    {
        match word {
            "face" => Some(Command::Face),
            "glyph" => Some(Command::Glyph),
            "mode" => Some(Command::Mode),
            "level" => Some(Command::Level),
            "dir" => Some(Command::Dir),
            "flags" => Some(Command::Flags),
            "text" => Some(Command::Text),
            "same" => Some(Command::Same),
            "lines" => Some(Command::Lines),
            _ => None,
        }
    }
}

/// The direction that a word stands for; `auto`, which leaves it to be guessed, stands for Invalid.
/// Refuses every other word.
pub fn direction(word: &str) -> Option<Direction>
    ensures { result ≡ direction_of word.now }
{
    match word {
        "auto" => Some(Direction::Invalid),
        "ltr" => Some(Direction::LeftToRight),
        "rtl" => Some(Direction::RightToLeft),
        "ttb" => Some(Direction::TopToBottom),
        "btt" => Some(Direction::BottomToTop),
        _ => None,
    }
}
