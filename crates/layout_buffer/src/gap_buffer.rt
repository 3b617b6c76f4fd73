//! The buffer of a lookup: the calls of a buffer, over lists with a gap.
ghost use Rattle.std.specs.Prelude.{◌≡◌, ◌<◌, ◌≤◌, ◌↔◌, ◌+◌, [], length, insert, remove, slice_set};
ghost use Rattle.std.specs.Prelude.{IsErrOf, IsOkUnless, OnOk, OnErr};
ghost use Rattle.shape_items.specs.Buffer.{limit_of, new_buffer, next_ligature_id};
ghost use Rattle.shape_items.specs.BufferClusters;
ghost use Rattle.shape_common.specs.Positions.{zero_position};
ghost use Rattle.layout_buffer.specs.GapLists.{list_of, IsGap};
ghost use Rattle.shape_buffer.specs.declared.buffer.error.ShapeError.TheVariants.{Length};

use crate::gap::GapList;
use crate::gap_items::{break_around, concat_around, merge_around};
use crate::item_list::ItemList;
use shape_buffer::buffer::ScratchFlags;
use shape_buffer::{
    BufferClusterLevel, BufferFlags, Direction, GlyphPosition, ShapeError, hb_buffer_t,
    hb_glyph_info_t,
};
use std::alloc::Global;
use std::marker::Model;
use std::mem;

/// A buffer that edits in linear time: it has taken the items and positions of a buffer over, and
/// gives them back.
#[derive(Drop)]
pub struct GapBuffer {
    /// The settings; it has no items.
    settings: hb_buffer_t,
    infos: GapList<hb_glyph_info_t>,
    positions: GapList<GlyphPosition>,
}

impl Model for GapBuffer {
    ghost use Rattle.std.specs.Prelude.{◌≡◌, [], length};
    ghost use Rattle.shape_items.specs.Buffer.{Buffer};
    ghost use Rattle.layout_buffer.specs.GapLists.{list_of, IsGap};

    ghost Value = { Buffer };

    ghost view = { λ b. record b.settings {
      items = list_of b.infos;
      positions = list_of b.positions;
    } };

    ghost invariant = { λ b. record {
      infos : IsGap b.infos;
      positions : IsGap b.positions;
      as_many : length (list_of b.positions) ≡ length (list_of b.infos);
      no_items : b.settings.items ≡ [];
      no_positions : b.settings.positions ≡ [];
    } };
}

/// Makes room for an item and for its position, where there is none. Refuses with `Memory` alone,
/// if a growth was refused. The lists stay in any case.
fn make_room_for(
    infos: &mut GapList<hb_glyph_info_t>,
    positions: &mut GapList<GlyphPosition>,
    item: &hb_glyph_info_t,
) -> Result<(), ShapeError>
    requires infos { IsGap infos.old }
    requires positions { IsGap positions.old }
    ensures infos { IsGap infos.new }
    ensures positions { IsGap positions.new }
    ensures items { list_of infos.new ≡ list_of infos.old }
    ensures zeros { list_of positions.new ≡ list_of positions.old }
    ensures ok { OnOk result ((0 < infos.new.room) × (0 < positions.new.room)) }
    ensures memory { IsOkUnless result ShapeError.Memory }
{
    infos.make_room(item)?;
    positions.make_room(&GlyphPosition::zero())
}

/// Notes that some items have glyph flags.
fn note_glyph_flags(settings: &mut hb_buffer_t)
    ensures { settings.new ≡ BufferClusters.with_glyph_flags settings.old }
{
    let seen = settings.scratch_flags().0 | ScratchFlags::HAS_GLYPH_FLAGS.0;
    settings.set_scratch_flags(ScratchFlags(seen));
}

impl GapBuffer {
    /// Takes the buffer over, and leaves a new one in its place.
    pub fn open(alloc: Global, buffer: &mut hb_buffer_t) -> Self
        ensures taken { result ≡ buffer.old }
        ensures left { buffer.new ≡ new_buffer }
    {
        let mut settings = mem::replace(buffer, hb_buffer_t::new(alloc));
        let (infos, positions) = settings.take_lists(alloc);
        GapBuffer {
            settings,
            infos: GapList::from_vec(infos),
            positions: GapList::from_vec(positions),
        }
    }

    /// The buffer, with its items in one slice again. Refuses with `Memory` alone, if a growth was
    /// refused: then the buffer has lost its items.
    pub fn close(self) -> (hb_buffer_t, Result<(), ShapeError>)
        ensures ok { OnOk result.1 (result.0 ≡ self) }
        ensures memory { IsOkUnless result.1 ShapeError.Memory }
        ensures err { OnErr result.1 (result.0 ≡ record self { items = []; positions = [] }) }
    {
        let mut settings = self.settings;
        let outcome = settings.put_lists(self.infos.into_vec(), self.positions.into_vec());
        (settings, outcome)
    }

    /// The buffer without its items, after a refusal.
    pub fn abandon(self) -> hb_buffer_t
        ensures { result ≡ record self { items = []; positions = [] } }
    {
        self.settings
    }

    /// How many items there are, and how many positions.
    pub fn len(&self) -> usize
        ensures items { result ≡ length self.now.items }
        ensures positions { result ≡ length self.now.positions }
    {
        self.infos.len()
    }

    /// The items.
    pub fn items(&self) -> ItemList<'_>
        ensures { result ≡ self.now.items }
    {
        ItemList::of_parts(self.infos.parts())
    }

    /// Replaces an item.
    #[tactic(auto, using(crate::proofs::GapLemmas::length_around))]
    pub fn set_info(&mut self, i: usize, item: hb_glyph_info_t)
        requires { i < length self.old.items }
        ensures { self.new ≡ record self.old { items = slice_set self.old.items i item } }
    {
        self.infos.set(i, item);
    }

    /// Puts an item in before the one at `i`, at the end if `i` is the length, at a position of
    /// zeros. Refuses with `Length` if the list has reached its limit, and with `Memory` if a
    /// growth was refused; a refused call changes nothing.
    #[tactic(auto, using(crate::proofs::GapLemmas::length_around))]
    pub fn insert(&mut self, i: usize, item: hb_glyph_info_t) -> Result<(), ShapeError>
        requires { i ≤ length self.old.items }
        ensures ok { OnOk result (self.new ≡ record self.old {
          items = insert self.old.items i item;
          positions = insert self.old.positions i zero_position;
        }) }
        ensures at_limit { IsErrOf result Length ↔ (limit_of self.old ≤ length self.old.items) }
        ensures err { OnErr result (self.new ≡ self.old) }
    {
        if self.length_limit() <= self.len() {
            return Err(ShapeError::Length);
        }
        make_room_for(&mut self.infos, &mut self.positions, &item)?;
        self.infos.insert(i, item);
        self.positions.insert(i, GlyphPosition::zero());
        Ok(())
    }

    /// Takes an item and its position out.
    #[tactic(auto, using(crate::proofs::GapLemmas::length_around))]
    pub fn remove(&mut self, i: usize)
        requires { i < length self.old.items }
        ensures { self.new ≡ record self.old {
          items = remove self.old.items i;
          positions = remove self.old.positions i;
        } }
    {
        self.infos.remove(i);
        self.positions.remove(i);
    }

    /// Merges the clusters of the items from `start` up to `end`, as `hb_buffer_t::merge_clusters`
    /// does.
    pub fn merge_clusters(&mut self, start: usize, end: usize)
        requires ordered { start ≤ end }
        requires within { end ≤ length self.old.items }
        ensures merged { self.new ≡ BufferClusters.merge_clusters start end self.old }
        ensures len { length self.new.items ≡ length self.old.items }
    {
        if self.settings.cluster_level() == BufferClusterLevel::Characters {
            self.unsafe_to_break(start, end);
            return;
        }
        let stored = self.infos.stored.as_mut_slice();
        self.infos.at = merge_around(stored, self.infos.at, self.infos.room, start, end);
    }

    /// Marks the items from `start` up to `end` unsafe to break, as `hb_buffer_t::unsafe_to_break`
    /// does.
    pub fn unsafe_to_break(&mut self, start: usize, end: usize)
        requires ordered { start ≤ end }
        requires within { end ≤ length self.old.items }
        ensures marked { self.new ≡ BufferClusters.unsafe_to_break start end self.old }
    {
        if end - start < 2 {
            return;
        }
        note_glyph_flags(&mut self.settings);
        let stored = self.infos.stored.as_mut_slice();
        self.infos.at = break_around(stored, self.infos.at, self.infos.room, start, end);
    }

    /// Marks the items from `start` up to `end` unsafe to concat, if that is asked for, as
    /// `hb_buffer_t::unsafe_to_concat` does.
    pub fn unsafe_to_concat(&mut self, start: usize, end: usize)
        requires ordered { start ≤ end }
        requires within { end ≤ length self.old.items }
        ensures marked { self.new ≡ BufferClusters.unsafe_to_concat start end self.old }
    {
        let asked = BufferFlags::PRODUCE_UNSAFE_TO_CONCAT.0;
        if self.settings.flags().0 & asked != asked {
            return;
        }
        note_glyph_flags(&mut self.settings);
        let stored = self.infos.stored.as_mut_slice();
        self.infos.at = concat_around(stored, self.infos.at, self.infos.room, start, end);
    }

    /// Reads the direction that the text runs in.
    pub fn direction(&self) -> Direction
        ensures { result ≡ self.now.direction }
    {
        self.settings.direction()
    }

    /// Reads what the caller asks of a run.
    pub fn flags(&self) -> BufferFlags
        ensures { result ≡ self.now.flags }
    {
        self.settings.flags()
    }

    /// Reads how far clusters are merged.
    pub fn cluster_level(&self) -> BufferClusterLevel
        ensures { result ≡ self.now.cluster_level }
    {
        self.settings.cluster_level()
    }

    /// The most items that the run may make, `usize::MAX` if no run has set a limit.
    pub fn length_limit(&self) -> usize
        ensures { result ≡ limit_of self.now }
    {
        self.settings.length_limit()
    }

    /// Reads what lookups may still ask for, as `hb_buffer_t::max_ops` does.
    pub fn max_ops(&self) -> usize
        ensures { result ≡ self.now.max_ops }
    {
        self.settings.max_ops()
    }

    /// Sets what lookups may still ask for, and nothing else.
    pub fn set_max_ops(&mut self, max_ops: usize)
        ensures { self.new ≡ record self.old { max_ops = max_ops } }
    {
        self.settings.set_max_ops(max_ops);
    }

    /// Reads the ligature id that was given last, 0 if the run has given none.
    pub fn serial(&self) -> u8
        ensures { result ≡ self.now.serial }
    {
        self.settings.serial()
    }

    /// Sets the ligature id that was given last, and nothing else.
    pub fn set_serial(&mut self, serial: u8)
        ensures { self.new ≡ record self.old { serial = serial } }
    {
        self.settings.set_serial(serial);
    }

    /// Gives the next ligature id, as `hb_buffer_t::allocate_lig_id` does.
    pub fn allocate_lig_id(&mut self) -> u8
        ensures id { result ≡ next_ligature_id self.old.serial }
        ensures given { self.new ≡ record self.old { serial = next_ligature_id self.old.serial } }
    {
        self.settings.allocate_lig_id()
    }
}
