//! How far the records of a rule are applied, and where it goes on.
ghost use Rattle.std.specs.Prelude.{◌≡◌, ◌<◌, ◌^◌, true, false, OnOk, IfOk, IsOkUnless};
ghost use Rattle.layout_context.specs.Nested;
ghost use Rattle.layout_context.specs.Places;

use crate::places::{is_too_long, moved_end, renumber};
use layout_matching::nesting::Target;
use layout_substitution::apply::Spot;
use shape_buffer::ShapeError;

/// How far the records of a rule are applied: what the lookup counts, where the rule goes on,
/// whether it goes no further, and the next record.
#[derive(Clone, Copy, PartialEq, Eq, Debug)]
pub struct Progress {
    pub spot: Spot,
    pub end: usize,
    pub stopped: bool,
    pub r: u32,
}

pub(crate) fn passed_record(progress: Progress) -> Progress
    requires { progress.r < 2 ^ 16 }
    ensures { result ≡ Nested.passed_record progress }
{
    let mut next = progress;
    next.r += 1;
    next
}

pub(crate) fn stopped_record(progress: Progress) -> Progress
    requires { progress.r < 2 ^ 16 }
    ensures { result ≡ Nested.stopped_record progress }
{
    let mut next = progress;
    next.spot.left = 0;
    next.stopped = true;
    next.r += 1;
    next
}

pub(crate) fn nested_spot(spot: Spot, place: usize, left: usize) -> Spot
    ensures { result ≡ Nested.nested_spot spot place left }
{
    let mut next = spot;
    next.at = place;
    next.left = left;
    next
}

/// After a lookup that was applied at a glyph, or wasn't. Refuses with `Memory` alone.
pub(crate) fn settle(
    there: &Target<'_>,
    before: usize,
    after: usize,
    places: &mut Vec<usize>,
    spot: Spot,
    progress: Progress,
) -> Result<Progress, ShapeError>
    requires index { there.now.index < 2 ^ 16 }
    requires place { there.now.place < before }
    requires r { progress.r < 2 ^ 16 }
    ensures progress { IfOk result (λ p. p
        ≡ Nested.settled there.now before after places.old.items spot progress) }
    ensures short { Places.is_too_long before after places.old.items ≡ false → OnOk result
        (places.new.items ≡ Places.renumbered there.now.place there.now.index before after
        places.old.items) }
    ensures long { Places.is_too_long before after places.old.items ≡ true
        → places.new.items ≡ places.old.items }
    ensures memory { IsOkUnless result ShapeError.Memory }
{
    let mut next = passed_record(progress);
    next.spot = spot;
    next.end = moved_end(there.place, before, after, progress.end);
    next.stopped = is_too_long(before, after, places.as_slice());
    if !next.stopped {
        renumber(places, there.place, there.index, before, after)?;
    }
    Ok(next)
}

/// Where a lookup goes on after a rule.
pub(crate) fn at_end(progress: Progress) -> Spot
    ensures { result ≡ record progress.spot { at = progress.end } }
{
    let mut next = progress.spot;
    next.at = progress.end;
    next
}
