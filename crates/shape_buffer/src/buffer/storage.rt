//! The list of items that the stages of shaping work on, with its settings.
//!
//! Beside the list stands room for deletion, 8 bytes an item, in which it notes where runs of one
//! cluster begin. The calls that grow the list grow it too, so deletion takes no memory and can't
//! be refused.
ghost use Rattle.std.specs.Prelude.{◌≡◌, ◌<◌, ◌↔◌, [], length, slice_set, IsTrue, Some};

mod edits;
mod guess;
mod ranges;
mod settings;
mod spans;

use crate::buffer::context::Context;
use shape_common::{
    BufferClusterLevel, BufferFlags, Direction, GlyphId, GlyphPosition, Language, ScratchFlags,
    Script,
};
use shape_items::hb_glyph_info_t;
use std::alloc::Global;
use std::marker::Model;

/// A run may make 64 items of each that it began with.
const MAX_LEN_FACTOR: usize = 64;

/// A run may make so many items, however few it began with.
const MAX_LEN_MIN: usize = 16384;

/// The lookups of a run may ask for so much for each item that it began with.
const MAX_OPS_FACTOR: usize = 40960;

/// The lookups of a run may ask for so much, however few items it began with.
const MAX_OPS_MIN: usize = 2_621_440;

/// The items of a text with their positions, and its settings. There are always as many positions
/// as items; an index counts either of them, from 0. A span goes from its start up to its end,
/// which it doesn't hold.
#[derive(Drop, Debug)]
pub struct hb_buffer_t {
    infos: Vec<hb_glyph_info_t>,
    positions: Vec<GlyphPosition>,
    /// Whether some position may be other than zeros. If none is, nothing is written to make them
    /// zeros.
    has_positions: bool,
    /// Room for deletion and for merging many spans, which take no memory: a number for each item,
    /// at least.
    run_starts: Vec<usize>,
    direction: Direction,
    script: Option<Script>,
    language: Option<Language>,
    flags: BufferFlags,
    cluster_level: BufferClusterLevel,
    invisible_glyph: Option<GlyphId>,
    not_found_variation_selector_glyph: Option<GlyphId>,
    scratch_flags: ScratchFlags,
    length_limit: Option<usize>,
    /// What lookups may still ask for.
    max_ops: usize,
    /// The ligature id that was given last, 0 for none.
    serial: u8,
    pre_context: Context,
    post_context: Context,
}

impl Model for hb_buffer_t {
    ghost use Rattle.std.specs.Prelude.{◌≡◌, ◌≤◌, false, length, replicate, string_bytes};
    ghost use Rattle.std.specs.Option.{option_map};
    ghost use Rattle.shape_common.specs.Positions.{zero_position};
    ghost use Rattle.shape_items.specs.Buffer.{Buffer};

    ghost Value = { Buffer };

    ghost view = { λ b. record {
      items = b.infos.items;
      positions = b.positions.items;
      direction = b.direction;
      script = b.script;
      language = option_map (λ language. string_bytes language.0) b.language;
      flags = b.flags;
      cluster_level = b.cluster_level;
      invisible_glyph = b.invisible_glyph;
      not_found_variation_selector_glyph = b.not_found_variation_selector_glyph;
      scratch_flags = b.scratch_flags;
      length_limit = b.length_limit;
      max_ops = b.max_ops;
      serial = b.serial;
      pre_context = b.pre_context;
      post_context = b.post_context;
    } };

    ghost invariant = { λ b. record {
      as_many : length b.positions.items ≡ length b.infos.items;
      room : length b.infos.items ≤ length b.run_starts.items;
      zeros : b.has_positions ≡ false
          → b.positions.items ≡ replicate (length b.positions.items) zero_position;
    } };
}

impl hb_buffer_t {
    ghost use Rattle.shape_items.specs.Buffer.{new_buffer, cleared, limit_of, most_countable, run_limit, run_ops};

    /// A buffer without text, at level MONOTONE_GRAPHEMES and without flags. It keeps the
    /// allocator; no other call takes one.
    pub fn new(alloc: Global) -> Self
        ensures { result ≡ new_buffer }
    {
        hb_buffer_t {
            infos: Vec::new(alloc),
            positions: Vec::new(alloc),
            has_positions: false,
            run_starts: Vec::new(alloc),
            direction: Direction::Invalid,
            script: None,
            language: None,
            flags: BufferFlags(0),
            cluster_level: BufferClusterLevel::MonotoneGraphemes,
            invisible_glyph: None,
            not_found_variation_selector_glyph: None,
            scratch_flags: ScratchFlags(0),
            length_limit: None,
            max_ops: usize::MAX,
            serial: 0,
            pre_context: Context::new(),
            post_context: Context::new(),
        }
    }

    /// How many items there are, and how many positions.
    pub fn len(&self) -> usize
        ensures items { result ≡ length self.now.items }
        ensures positions { result ≡ length self.now.positions }
    {
        self.infos.len()
    }

    /// Whether there is no item.
    pub fn is_empty(&self) -> bool
        ensures { IsTrue result ↔ (self.now.items ≡ []) }
    {
        self.infos.is_empty()
    }

    /// The items.
    pub fn infos(&self) -> &[hb_glyph_info_t]
        ensures { result.now ≡ self.now.items }
    {
        self.infos.as_slice()
    }

    /// The positions, as many as items.
    pub fn positions(&self) -> &[GlyphPosition]
        ensures value { result.now ≡ self.now.positions }
        ensures len { length result.now ≡ length self.now.items }
    {
        self.positions.as_slice()
    }

    /// The most items that the run may make, `usize::MAX` if no run has set a limit.
    pub fn length_limit(&self) -> usize
        ensures { result ≡ limit_of self.now }
    {
        self.length_limit.unwrap_or(usize::MAX)
    }

    /// Begins a run: no scratch flag, no ligature id given yet, a limit of 64 times as many items
    /// as there are, or of 16384 if that is more, and work for lookups by their number.
    pub fn enter(&mut self)
        ensures { self.new ≡ record self.old {
          scratch_flags = record { 0 = 0 };
          length_limit = Some (run_limit (length self.old.items));
          max_ops = run_ops (length self.old.items);
          serial = 0;
        } }
    {
        let count = self.infos.len();
        self.scratch_flags = ScratchFlags(0);
        self.serial = 0;
        self.length_limit = Some(count.saturating_mul(MAX_LEN_FACTOR).max(MAX_LEN_MIN));
        self.max_ops = count.saturating_mul(MAX_OPS_FACTOR).max(MAX_OPS_MIN);
    }

    /// Ends a run: lifts its limits.
    pub fn leave(&mut self)
        ensures { self.new
            ≡ record self.old { length_limit = None; max_ops = most_countable } }
    {
        self.length_limit = None;
        self.max_ops = usize::MAX;
    }

    /// Replaces an item.
    pub fn set_info(&mut self, i: usize, item: hb_glyph_info_t)
        requires { i < length self.old.items }
        ensures { self.new ≡ record self.old { items = slice_set self.old.items i item } }
    {
        self.infos[i] = item;
    }

    /// Replaces a position.
    pub fn set_position(&mut self, i: usize, position: GlyphPosition)
        requires { i < length self.old.items }
        ensures { self.new
            ≡ record self.old { positions = slice_set self.old.positions i position } }
    {
        self.positions[i] = position;
        self.has_positions = true;
    }

    /// Leaves the buffer cleared: no item, direction, script, language, context, scratch flag,
    /// limits or ligature id. Flags, level and the two glyph settings stay.
    pub fn reset(&mut self)
        ensures { self.new ≡ cleared self.old }
    {
        self.infos.clear();
        self.positions.clear();
        self.has_positions = false;
        self.direction = Direction::Invalid;
        self.script = None;
        self.language = None;
        self.scratch_flags = ScratchFlags(0);
        self.leave();
        self.serial = 0;
        self.pre_context = Context::new();
        self.post_context = Context::new();
    }
}
