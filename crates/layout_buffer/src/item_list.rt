//! What matching reads of a buffer.
ghost use Rattle.std.specs.Prelude.{◌≡◌, ◌<◌, ◌≤◌, ◌+◌, ℕ, length, slice_index_or};
ghost use Rattle.shape_items.specs.Items.{new_item};

use shape_buffer::hb_glyph_info_t;
use std::marker::Model;

/// The items of a buffer, in their order. They are stored in two pieces, the items before a gap and
/// those after it.
#[derive(Drop)]
pub struct ItemList<'a> {
    before: &'a [hb_glyph_info_t],
    after: &'a [hb_glyph_info_t],
}

impl<'a> Model for ItemList<'a> {
    ghost use Rattle.std.specs.Prelude.{List, ◌++◌};
    ghost use Rattle.shape_items.specs.Items.{Item};

    ghost Value = { List Item };

    ghost view = { λ l. l.before.now ++ l.after.now };
}

impl<'a> ItemList<'a> {
    ghost use Rattle.std.specs.Prelude.{◌++◌};

    /// The items of a slice.
    pub fn of_slice(infos: &'a [hb_glyph_info_t]) -> Self
        ensures { result ≡ infos.now }
    {
        ItemList {
            before: infos,
            after: &infos[infos.len()..],
        }
    }

    /// The items of two slices, one after the other.
    pub(crate) fn of_parts(parts: (&'a [hb_glyph_info_t], &'a [hb_glyph_info_t])) -> Self
        ensures { result ≡ parts.entry.0.now ++ parts.entry.1.now }
    {
        ItemList {
            before: parts.0,
            after: parts.1,
        }
    }

    /// How many items there are.
    pub fn len(&self) -> usize
        ensures { result ≡ length self.now }
    {
        self.before.len() + self.after.len()
    }

    /// The place after one that is inside, the length after the last one.
    pub fn place_after(&self, i: usize) -> usize
        requires { i < length self.now }
        ensures { result ≡ i + 1 }
    {
        let count = self.len();
        (i + 1).min(count)
    }

    /// The items from a place on that are stored in one piece with it: up to the gap, or to the
    /// end.
    #[tactic(auto, using(crate::proofs::GapLemmas::in_front, crate::proofs::GapLemmas::in_back))]
    pub fn piece(&self, i: usize) -> &[hb_glyph_info_t]
        requires { i ≤ length self.now }
        ensures few { i + length result.now ≤ length self.now }
        ensures some { i < length self.now → 0 < length result.now }
        ensures items { (j : ℕ) → j < length result.now
            → slice_index_or result.now j (new_item 0 0)
            ≡ slice_index_or self.now (i + j) (new_item 0 0) }
    {
        let count = self.before.len();
        if i < count {
            &self.before[i..]
        } else {
            &self.after[i - count..]
        }
    }

    /// The item at a place, from 0.
    pub fn at(&self, i: usize) -> &hb_glyph_info_t
        requires { i < length self.now }
        ensures { result.now ≡ slice_index_or self.now i (new_item 0 0) }
    {
        let count = self.before.len();
        if i < count {
            &self.before[i]
        } else {
            &self.after[i - count]
        }
    }

    /// The item at a place, from 0; past the end one that stands for U+0000, as a text brings it
    /// in.
    pub fn item(&self, i: usize) -> hb_glyph_info_t
        ensures { result ≡ slice_index_or self.now i (new_item 0 0) }
    {
        let count = self.before.len();
        if i < count {
            self.before[i]
        } else if i - count < self.after.len() {
            self.after[i - count]
        } else {
            hb_glyph_info_t::new('\0', 0)
        }
    }
}
