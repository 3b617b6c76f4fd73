//! The coordinates of variable fonts.
ghost use Rattle.std.specs.Prelude.{◌≡◌};
ghost use Rattle.c_runs.specs.Instances.{AreWritten, asked_coordinates};

use c_runs::instances::{coordinates_for, put_coordinates};
use c_runs::plain::luthgarn_variation;
use c_runs::refusal::{DONE, Refusal};
use std::alloc::Global;

/// Writes the coordinates of the font with this number where these wishes are met, if there is room
/// for them, and to `count` how many there are: none if nothing is wished, or the font has no axes.
/// Refuses with `Memory`, and with `Room` if there are more than there is room for.
#[unsafe(no_mangle)]
pub extern "C" fn luthgarn_coordinates(
    alloc: Global,
    bytes: &[u8],
    index: u32,
    wishes: &[luthgarn_variation],
    coordinates: &mut [i32],
    count: &mut usize,
) -> u32
    ensures written { (result ≡ 1 → ⊥) → AreWritten (asked_coordinates bytes.now index wishes.now)
        coordinates.old coordinates.new count.new result }
    ensures memory { result ≡ 1 → (coordinates.new ≡ coordinates.old) × (count.new ≡ count.old) }
{
    match coordinates_for(alloc, bytes, index, wishes) {
        Ok(there) => {
            let fits = there.len() <= coordinates.len();
            put_coordinates(there.as_slice(), coordinates);
            *count = there.len();
            if fits { DONE } else { Refusal::Room.code() }
        }
        Err(refusal) => refusal.code(),
    }
}
