//! Scripts (UAX 24), from the Unicode Character Database, and the directions that they are written
//! in.
ghost use Rattle.std.specs.Prelude.{◌≡◌};
ghost use Rattle.shape_sessions.specs.Scripts.{script_from, script_of, direction_of_script};

use shape_buffer::buffer::{Direction, Script, hb_tag_t};
use unicode::properties;

/// Arab, by its four letters.
const ARABIC: Script = Script(hb_tag_t(0x4172_6162));

/// Hebr, by its four letters.
const HEBREW: Script = Script(hb_tag_t(0x4865_6272));

/// Latn, by its four letters.
const LATIN: Script = Script(hb_tag_t(0x4C61_746E));

/// The tag of a script that the program tells from others.
fn from_database(script: properties::Script) -> Script
    ensures { result ≡ script_from script }
{
    match script {
        properties::Script::Arabic => ARABIC,
        properties::Script::Hebrew => HEBREW,
        properties::Script::Latin => LATIN,
        properties::Script::Common => Script::COMMON,
        properties::Script::Inherited => Script::INHERITED,
        _ => Script::UNKNOWN,
    }
}

/// The script of the database, if it is Arabic, Hebrew, Latin, Common or Inherited; else Unknown.
pub fn script(c: char) -> Script
    ensures { result ≡ script_of c }
{
    from_database(properties::Script::for_char(c))
}

/// Right to left for Arabic and Hebrew, else left to right.
pub fn script_direction(script: Script) -> Option<Direction>
    ensures { result ≡ direction_of_script script }
{
    if script == ARABIC || script == HEBREW {
        Some(Direction::RightToLeft)
    } else {
        Some(Direction::LeftToRight)
    }
}
