//! The tables of a font that are Apple's.
ghost use Rattle.std.specs.Prelude.{◌≡◌};
ghost use Rattle.shape_font.specs.Directory.{bytes_of};
ghost use Rattle.shape_font.specs.declared.tags.TheConstants.{ANKR, FEAT, KERX, LTAG, MORX, TRAK};

use crate::directory::Directory;
use crate::tags::{ANKR, FEAT, KERX, LTAG, MORX, TRAK};

/// The bytes of Apple's tables, empty ones of those that the font lacks.
#[derive(Clone, Copy)]
pub struct AppleTables<'a> {
    /// Substitution.
    pub morx: &'a [u8],
    /// Settings of features.
    pub feat: &'a [u8],
    /// Languages by number.
    pub ltag: &'a [u8],
    /// Kerning.
    pub kerx: &'a [u8],
    /// Points of glyphs.
    pub ankr: &'a [u8],
    /// Tracking.
    pub trak: &'a [u8],
}

/// Apple's tables of a font.
pub(crate) fn apple_tables<'a>(font: &Directory<'a>) -> AppleTables<'a>
    ensures morx { result.morx.now ≡ bytes_of font.now.bytes.now font.now.index MORX }
    ensures feat { result.feat.now ≡ bytes_of font.now.bytes.now font.now.index FEAT }
    ensures ltag { result.ltag.now ≡ bytes_of font.now.bytes.now font.now.index LTAG }
    ensures kerx { result.kerx.now ≡ bytes_of font.now.bytes.now font.now.index KERX }
    ensures ankr { result.ankr.now ≡ bytes_of font.now.bytes.now font.now.index ANKR }
    ensures trak { result.trak.now ≡ bytes_of font.now.bytes.now font.now.index TRAK }
{
    AppleTables {
        morx: font.table_or_empty(MORX),
        feat: font.table_or_empty(FEAT),
        ltag: font.table_or_empty(LTAG),
        kerx: font.table_or_empty(KERX),
        ankr: font.table_or_empty(ANKR),
        trak: font.table_or_empty(TRAK),
    }
}
