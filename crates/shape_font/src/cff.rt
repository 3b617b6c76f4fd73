//! The font of a table `CFF2` or `CFF `, by which glyphs are drawn with curves of the third degree.
ghost use Rattle.std.specs.Prelude.{◌≡◌};
ghost use Rattle.std.specs.Option.{option_map};
ghost use Rattle.shape_font.specs.Cff;

use crate::directory::Directory;
use crate::tags::{CFF, CFF2};
use cff_tables::CffFont;

/// The font of the table `CFF2`, or else of `CFF `, if it has so many glyphs.
pub fn cff_font<'a>(font: &Directory<'a>, count: u16) -> Option<CffFont<'a>>
    ensures layout { option_map (λ c. c.layout) result
        ≡ Cff.chosen_layout font.now.bytes.now font.now.index count }
    ensures table { option_map (λ c. c.table.now) result
        ≡ Cff.chosen_table font.now.bytes.now font.now.index count }
{
    match CffFont::from_cff2(font.table_or_empty(CFF2), count) {
        Some(cff) => Some(cff),
        None => CffFont::from_cff(font.table_or_empty(CFF), count),
    }
}
