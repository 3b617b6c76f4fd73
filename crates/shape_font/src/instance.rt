//! The coordinates of an instance of a variable font.
ghost use Rattle.std.specs.Prelude.{◌≡◌, IfOk};
ghost use Rattle.font_variations.specs.Coordinates as coordinate_rules;
ghost use Rattle.shape_font.specs.Directory.{bytes_of};
ghost use Rattle.shape_font.specs.declared.tags.TheConstants.{AVAR, FVAR};

use crate::directory::Directory;
use crate::tags::{AVAR, FVAR};
use font_variations::coordinates::{Wanted, coordinates};
use std::alloc::{AllocError, Global};

/// The coordinates of what is wanted of the font with this number, by its tables `fvar` and `avar`:
/// normalized, in units of 1/16384, one for each axis; none if nothing is wanted, or the font has
/// no axes. Refuses only if a growth was refused.
pub fn coordinates_of(
    alloc: Global,
    bytes: &[u8],
    index: u32,
    wanted: &Wanted<'_>,
) -> Result<Vec<i32>, AllocError>
    ensures { IfOk result (λ there. there.items ≡ coordinate_rules.coordinates_of
        (bytes_of bytes.now index FVAR) (bytes_of bytes.now index AVAR) wanted.now.instance
        wanted.now.wishes.now) }
{
    let font = Directory::of(bytes, index);
    coordinates(
        alloc,
        font.table_or_empty(FVAR),
        font.table_or_empty(AVAR),
        wanted,
    )
}
