//! The coordinates of variable fonts, as C asks for them.
ghost use Rattle.std.specs.Prelude.{◌≡◌, ◌≤◌, ◌<◌, ◌++◌, length, drop, map};
ghost use Rattle.std.specs.Prelude.{IfOk, IfErr, MatchResult};
ghost use Rattle.c_runs.specs.Instances.{asked_coordinates, variation_of_c};

use crate::plain::luthgarn_variation;
use crate::refusal::Refusal;
use font_variations::coordinates::{Variation, Wanted};
use shape_font::instance::coordinates_of;
use std::alloc::Global;

impl luthgarn_variation {
    /// The wish.
    fn variation(&self) -> Variation
        ensures { result ≡ variation_of_c self.now }
    {
        Variation {
            tag: self.tag,
            value: self.value,
        }
    }
}

/// The wishes that C has. Refuses with `Memory` alone.
fn wishes_of(alloc: Global, wishes: &[luthgarn_variation]) -> Result<Vec<Variation>, Refusal>
    ensures { MatchResult result (λ list. list.items ≡ map variation_of_c wishes.now)
        (λ refusal. refusal ≡ Refusal.Memory) }
{
    let mut list = Vec::new(alloc);
    for wish in wishes {
        list.push(wish.variation())?;
    }
    Ok(list)
}

/// The coordinates of the font with this number where these wishes are met, by its tables `fvar`
/// and `avar`; none if nothing is wished, or the font has no axes. Refuses with `Memory` alone.
pub fn coordinates_for(
    alloc: Global,
    bytes: &[u8],
    index: u32,
    wishes: &[luthgarn_variation],
) -> Result<Vec<i32>, Refusal>
    ensures ok { IfOk result (λ there. there.items
        ≡ asked_coordinates bytes.now index wishes.now) }
    ensures memory { IfErr result (λ e. e ≡ Refusal.Memory) }
{
    let wishes = wishes_of(alloc, wishes)?;
    let wanted = Wanted {
        instance: None,
        wishes: wishes.as_slice(),
    };
    Ok(coordinates_of(alloc, bytes, index, &wanted)?)
}

/// Writes coordinates to the first places, if there is room for all.
pub fn put_coordinates(coordinates: &[i32], room: &mut [i32])
    ensures fits { length coordinates.now ≤ length room.old
        → room.new ≡ coordinates.now ++ drop (length coordinates.now) room.old }
    ensures none { length room.old < length coordinates.now → room.new ≡ room.old }
{
    if coordinates.len() <= room.len() {
        room[..coordinates.len()].copy_from_slice(coordinates);
    }
}
