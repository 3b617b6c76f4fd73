//! Writing at places of a list.
ghost use Rattle.std.specs.Prelude.{◌≡◌, slice_set};

/// Puts an item at a place, if the list has it.
pub(crate) fn put<T: Copy>(items: &mut [T], place: usize, item: T)
    ensures { items.new ≡ slice_set items.old place item }
{
    if place < items.len() {
        items[place] = item;
    }
}
