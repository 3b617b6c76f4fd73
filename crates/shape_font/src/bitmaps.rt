//! The tables of a font that have bitmaps: `sbix`, `CBLC` and `CBDT`.
ghost use Rattle.std.specs.Prelude.{◌≡◌};
ghost use Rattle.shape_font.specs.Directory.{bytes_of};
ghost use Rattle.shape_font.specs.declared.tags.TheConstants.{SBIX, CBLC, CBDT};

use crate::directory::Directory;
use crate::tags::{CBDT, CBLC, SBIX};
use bitmap_tables::Bitmaps;

/// The bytes of these tables, empty ones of those that the font lacks.
pub fn bitmaps<'a>(font: &Directory<'a>) -> Bitmaps<'a>
    ensures sbix { result.sbix.now ≡ bytes_of font.now.bytes.now font.now.index SBIX }
    ensures cblc { result.cblc.now ≡ bytes_of font.now.bytes.now font.now.index CBLC }
    ensures cbdt { result.cbdt.now ≡ bytes_of font.now.bytes.now font.now.index CBDT }
{
    Bitmaps {
        sbix: font.table_or_empty(SBIX),
        cblc: font.table_or_empty(CBLC),
        cbdt: font.table_or_empty(CBDT),
    }
}
