//! Calls that change which items there are, or their order: positions go with their items.
ghost use Rattle.std.specs.Prelude.{◌≡◌, ◌<◌, ◌≤◌, ◌+◌, ◌-◌, ◌^◌, ◌↔◌, [], ◌∷◌, ◌++◌};
ghost use Rattle.std.specs.Prelude.{vec_capacity};
ghost use Rattle.std.specs.Prelude.{false, length, take, insert, remove};
ghost use Rattle.std.specs.Prelude.{All, reverse, swap, replicate, vec_len, IsErrOf, IsOkUnless, OnOk};
ghost use Rattle.std.specs.Prelude.{OnErr};
ghost use Rattle.std.specs.List.Sorted.{IsNonDecreasing};
ghost use Rattle.shape_items.specs.Buffer.{limit_of};
ghost use Rattle.shape_items.specs.Clusters.{clusters};
ghost use Rattle.shape_items.specs.Items.{new_item};
ghost use Rattle.shape_common.specs.Positions.{zero_position};
ghost use Rattle.shape_buffer.specs.Text.{text_items, numbered_from, IsFirstByte};
ghost use Rattle.shape_buffer.specs.declared.buffer.error.ShapeError.TheVariants.{Length};

use crate::buffer::error::ShapeError;
use crate::buffer::storage::hb_buffer_t;
use crate::buffer::text::{append_text, number_clusters};
use shape_common::GlyphPosition;
use shape_items::hb_glyph_info_t;
use std::alloc::{AllocError, Global};
use std::mem;

/// A list that grows takes room for so many more, however few are asked for.
const LEAST_GROWTH: usize = 8;

impl hb_buffer_t {
    /// Reverses the order of the items, and that of their positions with it.
    pub fn reverse(&mut self)
        ensures { self.new ≡ record self.old {
          items = reverse self.old.items;
          positions = reverse self.old.positions;
        } }
    {
        self.has_positions = true;
        self.infos.reverse();
        self.positions.reverse();
    }

    /// Exchanges two items, and their positions.
    pub fn swap(&mut self, i: usize, j: usize)
        requires { (i < length self.old.items) × (j < length self.old.items) }
        ensures { self.new ≡ record self.old {
          items = swap self.old.items i j;
          positions = swap self.old.positions i j;
        } }
    {
        self.swap_infos(i, j);
        self.has_positions = true;
        self.positions.swap(i, j);
    }

    /// Exchanges two items; positions stay, as when a hook reorders marks.
    pub fn swap_infos(&mut self, i: usize, j: usize)
        requires { (i < length self.old.items) × (j < length self.old.items) }
        ensures { self.new ≡ record self.old { items = swap self.old.items i j } }
    {
        self.infos.swap(i, j);
    }

    /// Takes an item and its position out.
    pub fn remove(&mut self, i: usize)
        requires { i < length self.old.items }
        ensures { self.new ≡ record self.old {
          items = remove self.old.items i;
          positions = remove self.old.positions i;
        } }
    {
        self.has_positions = true;
        self.infos.remove(i);
        self.positions.remove(i);
    }

    /// Takes out the items from `len` on, and their positions; if there are no more than `len`
    /// items nothing changes. Takes no memory.
    pub fn truncate(&mut self, len: usize)
        ensures { self.new ≡ record self.old {
          items = take len self.old.items;
          positions = take len self.old.positions;
        } }
    {
        self.infos.truncate(len);
        truncate_positions(&mut self.positions, len);
    }

    /// Puts an item in before the one at `i`, at the end if `i` is the length, at a position of
    /// zeros. Refuses with `Length` if the list has reached its limit, and with `Memory` if a
    /// growth was refused; a refused call changes nothing.
    pub fn insert(&mut self, i: usize, item: hb_glyph_info_t) -> Result<(), ShapeError>
        requires { i ≤ length self.old.items }
        ensures ok { OnOk result (self.new ≡ record self.old {
          items = insert self.old.items i item;
          positions = insert self.old.positions i zero_position;
        }) }
        ensures at_limit { IsErrOf result Length ↔ (limit_of self.old ≤ length self.old.items) }
        ensures err { OnErr result (self.new ≡ self.old) }
    {
        if self.length_limit() <= self.infos.len() {
            return Err(ShapeError::Length);
        }
        make_room(&mut self.run_starts, self.infos.len() + 1)?;
        self.positions.reserve(1)?;
        self.has_positions = true;
        self.infos.insert(i, item)?;
        self.positions.insert(i, GlyphPosition::zero())?;
        Ok(())
    }

    /// Makes these the items, at positions of zeros. Refuses with `Length` if there are more than
    /// the limit, and with `Memory` if a growth was refused; a refused call drops what it was given
    /// and changes nothing.
    pub fn replace_infos(&mut self, infos: Vec<hb_glyph_info_t>) -> Result<(), ShapeError>
        ensures ok { OnOk result (self.new ≡ record self.old {
          items = infos.items;
          positions = replicate (vec_len infos) zero_position;
        }) }
        ensures past_limit { IsErrOf result Length ↔ (limit_of self.old < vec_len infos) }
        ensures err { OnErr result (self.new ≡ self.old) }
    {
        if self.length_limit() < infos.len() {
            return Err(ShapeError::Length);
        }
        make_places(&mut self.run_starts, &mut self.positions, infos.len())?;
        make_zeros(self.has_positions, self.positions.as_mut_slice());
        self.has_positions = false;
        self.infos = infos;
        Ok(())
    }

    /// Hands the items and their positions over to a walk that edits lists of its own, and leaves
    /// the buffer without any. All settings stay. `put_lists` gives them back.
    pub fn take_lists(&mut self, alloc: Global) -> (Vec<hb_glyph_info_t>, Vec<GlyphPosition>)
        ensures infos { result.0.items ≡ self.old.items }
        ensures positions { result.1.items ≡ self.old.positions }
        ensures as_many { length result.1.items ≡ length result.0.items }
        ensures left { self.new ≡ record self.old { items = []; positions = [] } }
    {
        let infos = mem::replace(&mut self.infos, Vec::new(alloc));
        let positions = mem::replace(&mut self.positions, Vec::new(alloc));
        self.has_positions = false;
        (infos, positions)
    }

    /// Makes these the items, at these positions, as many as items. Refuses with `Memory` alone, if
    /// a growth was refused; a refused call drops what it was given and changes nothing.
    pub fn put_lists(
        &mut self,
        infos: Vec<hb_glyph_info_t>,
        positions: Vec<GlyphPosition>,
    ) -> Result<(), ShapeError>
        requires { vec_len positions ≡ vec_len infos }
        ensures ok { OnOk result (self.new
            ≡ record self.old { items = infos.items; positions = positions.items }) }
        ensures memory { IsOkUnless result ShapeError.Memory }
        ensures err { OnErr result (self.new ≡ self.old) }
    {
        make_room(&mut self.run_starts, infos.len())?;
        self.has_positions = true;
        self.infos = infos;
        self.positions = positions;
        Ok(())
    }

    /// Appends a character.
    pub(crate) fn push(&mut self, c: char, cluster: u32) -> Result<(), ShapeError>
        ensures ok { OnOk result (self.new ≡ record self.old {
          items = self.old.items ++ new_item c cluster ∷ [];
          positions = self.old.positions ++ zero_position ∷ [];
        }) }
        ensures memory { IsOkUnless result ShapeError.Memory }
        ensures err { OnErr result (self.new ≡ self.old) }
    {
        make_room(&mut self.run_starts, self.infos.len() + 1)?;
        make_way(&mut self.positions, 1)?;
        make_way(&mut self.infos, 1)?;
        self.infos.push_reserved(hb_glyph_info_t::new(c, cluster));
        self.positions.push_reserved(GlyphPosition::zero());
        Ok(())
    }

    /// Appends the characters of a text, whose clusters are byte offsets in it.
    pub(crate) fn push_str(&mut self, text: &str) -> Result<(), ShapeError>
        requires { length text.now < 2 ^ 32 }
        ensures ok { OnOk result (self.new ≡ record self.old {
          items = self.old.items ++ text_items text.now;
          positions = self.old.positions ++ replicate (length (text_items text.now)) zero_position;
        }) }
        ensures memory { IsOkUnless result ShapeError.Memory }
        ensures err { OnErr result (self.new ≡ self.old) }
        ensures clusters { IsNonDecreasing (clusters (text_items text.now))
            × All (λ item. item.cluster < length text.now) (text_items text.now) }
        ensures first { All (IsFirstByte text.now) (text_items text.now) }
    {
        let before = self.infos.len();
        self.reserve(count_chars(text))?;
        let mut outcome = append_text(&mut self.infos, text);
        if outcome.is_ok() {
            outcome = make_room(&mut self.run_starts, self.infos.len());
        }
        if outcome.is_ok() {
            outcome = resize_zeros(&mut self.positions, self.infos.len());
        }
        if outcome.is_err() {
            self.infos.truncate(before);
        }
        outcome?;
        Ok(())
    }

    /// Makes room for so many more items.
    pub(crate) fn reserve(&mut self, additional: usize) -> Result<(), ShapeError>
        ensures same { self.new ≡ self.old }
        ensures memory { IsOkUnless result ShapeError.Memory }
    {
        let count = self.infos.len().saturating_add(additional);
        make_room(&mut self.run_starts, count)?;
        make_way(&mut self.positions, additional)?;
        make_way(&mut self.infos, additional)?;
        Ok(())
    }

    /// Puts each item in the cluster of its place.
    pub(crate) fn reset_clusters(&mut self)
        ensures { self.new ≡ record self.old { items = numbered_from 0 self.old.items } }
    {
        number_clusters(self.infos.as_mut_slice());
    }
}

/// How many characters a text has: as many as bytes that begin one. Each byte is looked at by
/// itself, so that a machine counts many at once. No clause says so, since only the room that is
/// asked for hangs on it.
fn count_chars(text: &str) -> usize {
    let mut count: usize = 0;
    for byte in text.as_bytes() {
        count = count.wrapping_add(usize::from(*byte & 0xC0 != 0x80));
    }
    count
}

/// Makes room for so many items, and as many positions: a list of zeros alone stays one.
fn make_places(
    run_starts: &mut Vec<usize>,
    positions: &mut Vec<GlyphPosition>,
    count: usize,
) -> Result<(), AllocError>
    ensures room { OnOk result (count ≤ length run_starts.new.items) }
    ensures longer { length run_starts.old.items ≤ length run_starts.new.items }
    ensures len { OnOk result (length positions.new.items ≡ count) }
    ensures err { OnErr result (positions.new.items ≡ positions.old.items) }
    ensures zeros { positions.old.items ≡ replicate (length positions.old.items) zero_position
        → positions.new.items ≡ replicate (length positions.new.items) zero_position }
{
    make_room(run_starts, count)?;
    let more = count.saturating_sub(positions.len());
    make_way(positions, more)?;
    resize_zeros(positions, count)
}

/// Makes a list so long, with zeros after what it has: a list of zeros alone stays one.
fn resize_zeros(positions: &mut Vec<GlyphPosition>, count: usize) -> Result<(), AllocError>
    ensures items { OnOk result (positions.new.items ≡ take count positions.old.items
        ++ replicate (count - length positions.old.items) zero_position) }
    ensures len { OnOk result (length positions.new.items ≡ count) }
    ensures err { OnErr result (positions.new.items ≡ positions.old.items) }
    ensures zeros { positions.old.items ≡ replicate (length positions.old.items) zero_position
        → positions.new.items ≡ replicate (length positions.new.items) zero_position }
{
    positions.resize(count, GlyphPosition::zero())
}

/// Makes a list no longer than this: a list of zeros alone stays one.
fn truncate_positions(positions: &mut Vec<GlyphPosition>, len: usize)
    ensures items { positions.new.items ≡ take len positions.old.items }
    ensures zeros { positions.old.items ≡ replicate (length positions.old.items) zero_position
        → positions.new.items ≡ replicate (length positions.new.items) zero_position }
{
    positions.truncate(len);
}

/// Makes every position zeros: nothing is written if they are.
pub(super) fn make_zeros(has_positions: bool, positions: &mut [GlyphPosition])
    requires { has_positions ≡ false
        → positions.old ≡ replicate (length positions.old) zero_position }
    ensures { positions.new ≡ replicate (length positions.old) zero_position }
{
    if has_positions {
        zero_positions(positions);
    }
}

/// Sets every position to zeros. A call of its own: if LLVM inlines it into a large function, the
/// loop does not become one fill of memory.
#[inline(never)]
fn zero_positions(positions: &mut [GlyphPosition])
    ensures { positions.new ≡ replicate (length positions.old) zero_position }
{
    for position in positions.iter_mut() {
        *position = GlyphPosition::zero();
    }
}

/// Makes a list at least so long, and half as long again as it was if it grows. It gets no shorter,
/// even if memory is refused.
fn make_room(numbers: &mut Vec<usize>, count: usize) -> Result<(), AllocError>
    ensures room { OnOk result (count ≤ length numbers.new.items) }
    ensures longer { length numbers.old.items ≤ length numbers.new.items }
{
    let len = numbers.len();
    if len < count {
        let more = grown_by(len, count - len);
        numbers.reserve_exact(more)?;
        numbers.resize(len.saturating_add(more), 0)?;
    }
    Ok(())
}

/// Makes room for so many more, and for half as many more as there are if that takes memory. A list
/// that grows item by item is so moved seldom, and leaves a third of its room free at most.
fn make_way<T>(list: &mut Vec<T>, additional: usize) -> Result<(), AllocError>
    ensures items { list.new.items ≡ list.old.items }
    ensures room { OnOk result (vec_len list.new + additional ≤ vec_capacity list.new) }
{
    let len = list.len();
    if additional <= list.capacity().saturating_sub(len) {
        return Ok(());
    }
    list.reserve_exact(grown_by(len, additional))?;
    Ok(())
}

/// By how many a list of `len` grows that wants room for so many more.
fn grown_by(len: usize, additional: usize) -> usize
    ensures { additional ≤ result }
{
    additional.max((len / 2).saturating_add(LEAST_GROWTH))
}
