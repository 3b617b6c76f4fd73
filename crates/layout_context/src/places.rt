//! The places of the glyphs that a rule matched, after a nested lookup that changed how many items
//! there are.
//!
//! More items are taken to stand right after the glyph that the lookup was applied to, fewer to be
//! missing from the glyphs after it, as HarfBuzz takes them.
ghost use Rattle.std.specs.Prelude.{◌≡◌, ◌<◌, ◌-◌, ◌^◌, ◌+◌, map, OnOk, IfOk, IsOkUnless};
ghost use Rattle.layout_matching.specs.Loops.{times};
ghost use Rattle.layout_context.specs.Places;

use shape_buffer::ShapeError;

fn shift_one(place: usize, before: usize, after: usize, j: usize) -> usize
    ensures { result ≡ Places.shifted place before after j }
{
    if place < j {
        after.saturating_sub(before.saturating_sub(j))
    } else {
        j
    }
}

fn shift_in_place(j: &mut usize, place: usize, before: usize, after: usize)
    ensures { j.new ≡ Places.shifted place before after j.old }
{
    *j = shift_one(place, before, after, *j);
}

fn shift_all(places: &mut [usize], place: usize, before: usize, after: usize)
    ensures { places.new ≡ map (Places.shifted place before after) places.old }
{
    for j in places.iter_mut() {
        shift_in_place(j, place, before, after);
    }
}

fn drop_one(places: &mut Vec<usize>, index: usize)
    requires { index < 2 ^ 16 }
    ensures { places.new.items ≡ Places.one_dropped index places.old.items }
{
    if index + 1 < places.len() {
        places.remove(index + 1);
    }
}

#[tactic(auto, using(layout_matching::proofs::LoopLemmas::times_step))]
fn drop_some(places: &mut Vec<usize>, index: usize, n: usize)
    requires { index < 2 ^ 16 }
    ensures { places.new.items ≡ times (Places.one_dropped index) n places.old.items }
{
    for _i in 0..n {
        drop_one(places, index);
    }
}

fn grow_one(places: &mut Vec<usize>, index: usize, next: usize) -> Result<usize, ShapeError>
    requires { index < 2 ^ 16 }
    ensures ok { IfOk result (λ left. record { places = places.new.items; next = left }
        ≡ Places.one_grown index (record { places = places.old.items; next = next })) }
    ensures memory { IsOkUnless result ShapeError.Memory }
{
    if index < places.len() {
        places.insert(index + 1, next)?;
    }
    Ok(next.saturating_sub(1))
}

#[tactic(auto, using(layout_matching::proofs::LoopLemmas::times_step, crate::proofs::PlaceLemmas::places_grown))]
fn grow_some(places: &mut Vec<usize>, index: usize, n: usize, next: usize) -> Result<(), ShapeError>
    requires { index < 2 ^ 16 }
    ensures ok { OnOk result (places.new.items
        ≡ (times (Places.one_grown index) n
        (record { places = places.old.items; next = next })).places) }
    ensures memory { IsOkUnless result ShapeError.Memory }
{
    let mut next = next;
    for _i in 0..n {
        next = grow_one(places, index, next)?;
    }
    Ok(())
}

/// The places of the matched glyphs after a lookup that changed how many items there are. Refuses
/// with `Memory` alone.
pub fn renumber(
    places: &mut Vec<usize>,
    place: usize,
    index: usize,
    before: usize,
    after: usize,
) -> Result<(), ShapeError>
    requires index { index < 2 ^ 16 }
    requires place { place < before }
    ensures ok { OnOk result (places.new.items
        ≡ Places.renumbered place index before after places.old.items) }
    ensures memory { IsOkUnless result ShapeError.Memory }
{
    drop_some(places, index, before.saturating_sub(after));
    shift_all(places.as_mut_slice(), place, before, after);
    let more = after.saturating_sub(before);
    grow_some(places, index, more, last_grown(place, before, after))
}

/// The place of the last item that came after `place`.
fn last_grown(place: usize, before: usize, after: usize) -> usize
    requires { place < before }
    ensures { result ≡ place + (after - before) }
{
    if before < after {
        after - (before - place)
    } else {
        place
    }
}

/// Where a rule goes on after a nested lookup at `place`: with as many items after it as before,
/// never before `place`.
pub fn moved_end(place: usize, before: usize, after: usize, end: usize) -> usize
    ensures { result ≡ Places.moved_end place before after end }
{
    after.saturating_sub(before.saturating_sub(end)).max(place)
}

/// Whether a rule would hold more than 64 glyphs after a nested lookup.
pub fn is_too_long(before: usize, after: usize, places: &[usize]) -> bool
    ensures { result ≡ Places.is_too_long before after places.now }
{
    before < after && 64_usize.saturating_sub(after - before) < places.len()
}
