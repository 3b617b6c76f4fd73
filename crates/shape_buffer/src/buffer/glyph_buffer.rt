//! The glyphs of a shaped text.
ghost use Rattle.std.specs.Prelude.{◌≡◌};

use crate::buffer::error::ShapeError;
use crate::buffer::storage::hb_buffer_t;
use crate::buffer::unicode_buffer::UnicodeBuffer;
use shape_common::{Direction, GlyphPosition, Language, Script};
use shape_items::clusters::{GlyphCluster, clusters_in_order};
use shape_items::hb_glyph_info_t;
use std::alloc::Global;
use std::iter::Zip;
use std::marker::Model;
use std::slice::Iter;

/// The glyphs of a shaped text with their positions, always as many of one as of the other.
#[derive(Drop, Debug)]
pub struct GlyphBuffer {
    buffer: hb_buffer_t,
}

impl hb_buffer_t {
    /// Hands the items out as glyphs.
    pub fn into_glyphs(self) -> GlyphBuffer
        ensures { result ≡ self }
    {
        GlyphBuffer { buffer: self }
    }
}

impl Model for GlyphBuffer {
    ghost use Rattle.shape_items.specs.Buffer.{Buffer};

    ghost Value = { Buffer };

    ghost view = { λ b. b.buffer };
}

impl GlyphBuffer {
    ghost use Rattle.std.specs.Iterator.Adapters.{zip_first, zip_second};
    ghost use Rattle.std.specs.Option.{option_map};
    ghost use Rattle.std.specs.Prelude.{◌↔◌, [], length, string_bytes, IsTrue, IfOk, IsOkUnless};
    ghost use Rattle.std.specs.Slice.Iter.{iter_rest};
    ghost use Rattle.shape_items.specs.Buffer.{cleared};
    ghost use Rattle.shape_items.specs.GlyphClusters.{clusters_in_text_order};

    /// How many glyphs there are.
    pub fn len(&self) -> usize
        ensures { result ≡ length self.now.items }
    {
        self.buffer.len()
    }

    /// Whether there is no glyph.
    pub fn is_empty(&self) -> bool
        ensures { IsTrue result ↔ (self.now.items ≡ []) }
    {
        self.buffer.is_empty()
    }

    /// The glyphs.
    pub fn glyph_infos(&self) -> &[hb_glyph_info_t]
        ensures { result.now ≡ self.now.items }
    {
        self.buffer.infos()
    }

    /// Where the glyphs stand, in units of the face: as many as glyphs.
    pub fn glyph_positions(&self) -> &[GlyphPosition]
        ensures value { result.now ≡ self.now.positions }
        ensures len { length result.now ≡ length self.now.items }
    {
        self.buffer.positions()
    }

    /// The glyphs one after the other, each with its position.
    pub fn iter(&self) -> Zip<Iter<'_, hb_glyph_info_t>, Iter<'_, GlyphPosition>>
        ensures infos { iter_rest (zip_first result) ≡ self.now.items }
        ensures positions { iter_rest (zip_second result) ≡ self.now.positions }
        ensures len { length self.now.positions ≡ length self.now.items }
    {
        self.glyph_infos().iter().zip(self.glyph_positions())
    }

    /// The clusters in the order of the text, each with its glyphs, how far they move the pen, and
    /// whether a line may be cut before its text. Neighbours in one cluster stand as one. Refuses
    /// with `Memory` if a growth was refused.
    pub fn clusters(&self, alloc: Global) -> Result<Vec<GlyphCluster>, ShapeError>
        ensures clusters { IfOk result (λ clusters. clusters.items
            ≡ clusters_in_text_order self.now) }
        ensures memory { IsOkUnless result ShapeError.Memory }
    {
        let direction = self.direction();
        let infos = self.glyph_infos();
        let mut clusters = clusters_in_order(alloc, infos, self.glyph_positions(), direction)?;
        if direction.is_backward() {
            clusters.reverse();
        }
        Ok(clusters)
    }

    /// The direction that the glyphs run in: that of the text.
    pub fn direction(&self) -> Direction
        ensures { result ≡ self.now.direction }
    {
        self.buffer.direction()
    }

    /// The script of the text, if it was set or guessed.
    pub fn script(&self) -> Option<Script>
        ensures { result ≡ self.now.script }
    {
        self.buffer.script()
    }

    /// The language of the text, if it was set.
    pub fn language(&self) -> Option<&Language>
        ensures { option_map (λ language. string_bytes language.now.0) result ≡ self.now.language }
    {
        self.buffer.language()
    }

    /// Gives the buffer back cleared, for new text: flags, level and the two glyph settings stay.
    /// Takes no memory.
    pub fn clear(self) -> UnicodeBuffer
        ensures { result ≡ cleared self }
    {
        self.buffer.clear()
    }
}
