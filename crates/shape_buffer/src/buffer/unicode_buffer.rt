//! Text that waits to be shaped.
ghost use Rattle.std.specs.Prelude.{◌≡◌, ◌<◌, ◌≤◌, ◌^◌, ◌↔◌, [], ◌∷◌, ◌++◌, length, replicate};
ghost use Rattle.std.specs.Prelude.{All};
ghost use Rattle.std.specs.Prelude.{string_bytes, IsTrue, IsOkUnless, OnOk, OnErr};
ghost use Rattle.std.specs.List.Sorted.{IsNonDecreasing};
ghost use Rattle.std.specs.Option.{option_map};

use crate::buffer::error::ShapeError;
use crate::buffer::storage::hb_buffer_t;
use shape_common::{
    BufferClusterLevel, BufferFlags, Direction, GlyphId, Language, Script, hb_unicode_funcs_t,
};
use std::alloc::Global;
use std::marker::Model;

/// A text with its settings, to be shaped.
#[derive(Drop, Debug)]
pub struct UnicodeBuffer {
    buffer: hb_buffer_t,
}

impl hb_buffer_t {
    ghost use Rattle.shape_items.specs.Buffer.{cleared};

    /// Gives the buffer cleared, for new text: flags, level and the two glyph settings stay. Takes
    /// no memory.
    pub fn clear(mut self) -> UnicodeBuffer
        ensures { result ≡ cleared self }
    {
        self.reset();
        UnicodeBuffer::from_buffer(self)
    }
}

impl Model for UnicodeBuffer {
    ghost use Rattle.shape_items.specs.Buffer.{Buffer};

    ghost Value = { Buffer };

    ghost view = { λ b. b.buffer };
}

impl UnicodeBuffer {
    ghost use Rattle.shape_items.specs.Buffer.{new_buffer};
    ghost use Rattle.shape_items.specs.Clusters.{clusters};
    ghost use Rattle.shape_buffer.specs.Guess.{guessed};
    ghost use Rattle.shape_items.specs.Items.{new_item};
    ghost use Rattle.shape_buffer.specs.Text.{text_items, context_before, context_after};
    ghost use Rattle.shape_buffer.specs.Text.{numbered_from, IsFirstByte};
    ghost use Rattle.shape_common.specs.Positions.{zero_position};

    /// A buffer without text, at level MONOTONE_GRAPHEMES and without flags. It keeps the
    /// allocator.
    pub fn new(alloc: Global) -> Self
        ensures { result ≡ new_buffer }
    {
        UnicodeBuffer {
            buffer: hb_buffer_t::new(alloc),
        }
    }

    pub(crate) fn from_buffer(buffer: hb_buffer_t) -> Self
        ensures { result ≡ buffer }
    {
        UnicodeBuffer { buffer }
    }

    /// How many characters there are.
    pub fn len(&self) -> usize
        ensures { result ≡ length self.now.items }
    {
        self.buffer.len()
    }

    /// Whether there is no character.
    pub fn is_empty(&self) -> bool
        ensures { IsTrue result ↔ (self.now.items ≡ []) }
    {
        self.buffer.is_empty()
    }

    /// Appends a character, whose cluster leads back to the caller's text. Refuses with `Memory` if
    /// a growth was refused; a refused call changes nothing.
    pub fn add(&mut self, c: char, cluster: u32) -> Result<(), ShapeError>
        ensures ok { OnOk result (self.new ≡ record self.old {
          items = self.old.items ++ new_item c cluster ∷ [];
          positions = self.old.positions ++ zero_position ∷ [];
        }) }
        ensures memory { IsOkUnless result ShapeError.Memory }
        ensures err { OnErr result (self.new ≡ self.old) }
    {
        self.buffer.push(c, cluster)
    }

    /// Appends the characters of a text, whose clusters are the offsets of their first bytes in it:
    /// there the text may be cut, they never fall, and each is below the text's length. The text
    /// has fewer than 2^32 bytes, since clusters are 32 bits. Refuses with `Memory` if a growth was
    /// refused; a refused call changes nothing.
    pub fn push_str(&mut self, text: &str) -> Result<(), ShapeError>
        requires { length text.now < 2 ^ 32 }
        ensures ok { OnOk result (self.new ≡ record self.old {
          items = self.old.items ++ text_items text.now;
          positions = self.old.positions ++ replicate (length (text_items text.now)) zero_position;
        }) }
        ensures memory { IsOkUnless result ShapeError.Memory }
        ensures err { OnErr result (self.new ≡ self.old) }
        ensures clusters { IsNonDecreasing (clusters (text_items text.now))
            × All (λ item. item.cluster < length text.now) (text_items text.now) }
        ensures first { All (IsFirstByte text.now) (text_items text.now) }
    {
        self.buffer.push_str(text)
    }

    /// Makes room for so many more characters, so that appending them isn't refused. Changes
    /// nothing that is seen. Refuses with `Memory` if a growth was refused.
    pub fn reserve(&mut self, additional: usize) -> Result<(), ShapeError>
        ensures same { self.new ≡ self.old }
        ensures memory { IsOkUnless result ShapeError.Memory }
    {
        self.buffer.reserve(additional)
    }

    /// Puts the characters in clusters 0, 1, 2 and so on, in their order, whatever clusters they
    /// had. From 2^32 - 1 on, all are in that cluster. Takes no memory.
    pub fn reset_clusters(&mut self)
        ensures numbered { self.new
            ≡ record self.old { items = numbered_from 0 self.old.items } }
        ensures clusters { IsNonDecreasing (clusters self.new.items) }
    {
        self.buffer.reset_clusters();
    }

    /// Reads the direction that the text runs in.
    pub fn direction(&self) -> Direction
        ensures { result ≡ self.now.direction }
    {
        self.buffer.direction()
    }

    /// Sets the direction that the text runs in, and nothing else.
    pub fn set_direction(&mut self, direction: Direction)
        ensures { self.new ≡ record self.old { direction = direction } }
    {
        self.buffer.set_direction(direction);
    }

    /// Reads the script of the text, if it is set.
    pub fn script(&self) -> Option<Script>
        ensures { result ≡ self.now.script }
    {
        self.buffer.script()
    }

    /// Sets or unsets the script of the text, and nothing else.
    pub fn set_script(&mut self, script: Option<Script>)
        ensures { self.new ≡ record self.old { script = script } }
    {
        self.buffer.set_script(script);
    }

    /// Reads the language of the text, if it is set.
    pub fn language(&self) -> Option<&Language>
        ensures { option_map (λ language. string_bytes language.now.0) result ≡ self.now.language }
    {
        self.buffer.language()
    }

    /// Sets or unsets the language of the text, and nothing else.
    pub fn set_language(&mut self, language: Option<Language>)
        ensures { self.new
            ≡ record self.old {
              language = option_map (λ language. string_bytes language.0) language;
            } }
    {
        self.buffer.set_language(language);
    }

    /// Reads what the caller asks of a run.
    pub fn flags(&self) -> BufferFlags
        ensures { result ≡ self.now.flags }
    {
        self.buffer.flags()
    }

    /// Sets what the caller asks of a run, and nothing else.
    pub fn set_flags(&mut self, flags: BufferFlags)
        ensures { self.new ≡ record self.old { flags = flags } }
    {
        self.buffer.set_flags(flags);
    }

    /// Reads how far clusters are merged.
    pub fn cluster_level(&self) -> BufferClusterLevel
        ensures { result ≡ self.now.cluster_level }
    {
        self.buffer.cluster_level()
    }

    /// Sets how far clusters are merged, and nothing else.
    pub fn set_cluster_level(&mut self, cluster_level: BufferClusterLevel)
        ensures { self.new ≡ record self.old { cluster_level = cluster_level } }
    {
        self.buffer.set_cluster_level(cluster_level);
    }

    /// Reads the glyph that replaces default ignorables, if it is set.
    pub fn invisible_glyph(&self) -> Option<GlyphId>
        ensures { result ≡ self.now.invisible_glyph }
    {
        self.buffer.invisible_glyph()
    }

    /// Sets or unsets the glyph that replaces default ignorables, and nothing else.
    pub fn set_invisible_glyph(&mut self, invisible_glyph: Option<GlyphId>)
        ensures { self.new ≡ record self.old { invisible_glyph = invisible_glyph } }
    {
        self.buffer.set_invisible_glyph(invisible_glyph);
    }

    /// Reads the glyph that replaces variation selectors without a variation glyph, if it is set.
    pub fn not_found_variation_selector_glyph(&self) -> Option<GlyphId>
        ensures { result ≡ self.now.not_found_variation_selector_glyph }
    {
        self.buffer.not_found_variation_selector_glyph()
    }

    /// Sets or unsets the glyph that replaces variation selectors without a variation glyph, and
    /// nothing else.
    pub fn set_not_found_variation_selector_glyph(
        &mut self,
        not_found_variation_selector_glyph: Option<GlyphId>,
    )
        ensures { self.new
            ≡ record self.old {
              not_found_variation_selector_glyph = not_found_variation_selector_glyph;
            } }
    {
        self.buffer
            .set_not_found_variation_selector_glyph(not_found_variation_selector_glyph);
    }

    /// Reads what is kept of the text before this one: at most five characters, in their order.
    pub fn pre_context(&self) -> &[char]
        ensures value { result.now ≡ self.now.pre_context }
        ensures len { length result.now ≤ 5 }
    {
        self.buffer.pre_context()
    }

    /// Keeps the last five characters of the text before this one, and sets nothing else.
    pub fn set_pre_context(&mut self, text: &str)
        ensures { self.new ≡ record self.old { pre_context = context_before text.now } }
    {
        self.buffer.set_pre_context(text);
    }

    /// Reads what is kept of the text after this one: at most five characters, in their order.
    pub fn post_context(&self) -> &[char]
        ensures value { result.now ≡ self.now.post_context }
        ensures len { length result.now ≤ 5 }
    {
        self.buffer.post_context()
    }

    /// Keeps the first five characters of the text after this one, and sets nothing else.
    pub fn set_post_context(&mut self, text: &str)
        ensures { self.new ≡ record self.old { post_context = context_after text.now } }
    {
        self.buffer.set_post_context(text);
    }

    /// Sets script and direction by guessing, if they aren't set: the script becomes the first of
    /// the characters' scripts that is neither Common nor Inherited nor Unknown, the direction that
    /// of the script, else left to right.
    pub fn guess_segment_properties<U: hb_unicode_funcs_t>(&mut self)
        ensures { self.new ≡ guessed U.unicode self.old }
    {
        self.buffer.guess_segment_properties::<U>();
    }

    /// Shows the list of items and its settings.
    pub fn as_inner(&self) -> &hb_buffer_t
        ensures { result.now ≡ self.now }
    {
        &self.buffer
    }

    /// Gives the list of items and its settings, for the stages of shaping.
    pub fn into_inner(self) -> hb_buffer_t
        ensures { result ≡ self }
    {
        self.buffer
    }
}
