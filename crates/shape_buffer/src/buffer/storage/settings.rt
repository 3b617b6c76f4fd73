//! The settings of a buffer: what its text is, what its caller asks of a run, and what the run has
//! seen.
//!
//! A setting that may be unset is an `Option` in its setter as in its reader: a caller can unset
//! what it has set.
ghost use Rattle.std.specs.Prelude.{◌≡◌, ◌<◌, ◌≤◌, length, string_bytes};
ghost use Rattle.std.specs.Option.{option_map};
ghost use Rattle.shape_items.specs.Buffer.{next_ligature_id};
ghost use Rattle.shape_buffer.specs.Text.{context_before, context_after};

use crate::buffer::context::Context;
use crate::buffer::storage::hb_buffer_t;
use shape_common::{
    BufferClusterLevel, BufferFlags, Direction, GlyphId, Language, ScratchFlags, Script,
};

impl hb_buffer_t {
    /// Reads the direction that the text runs in.
    pub fn direction(&self) -> Direction
        ensures { result ≡ self.now.direction }
    {
        self.direction
    }

    /// Sets the direction that the text runs in, and nothing else.
    pub fn set_direction(&mut self, direction: Direction)
        ensures { self.new ≡ record self.old { direction = direction } }
    {
        self.direction = direction;
    }

    /// Reads the script of the text, if it is set.
    pub fn script(&self) -> Option<Script>
        ensures { result ≡ self.now.script }
    {
        self.script
    }

    /// Sets or unsets the script of the text, and nothing else.
    pub fn set_script(&mut self, script: Option<Script>)
        ensures { self.new ≡ record self.old { script = script } }
    {
        self.script = script;
    }

    /// Reads the language of the text, if it is set.
    pub fn language(&self) -> Option<&Language>
        ensures { option_map (λ language. string_bytes language.now.0) result ≡ self.now.language }
    {
        self.language.as_ref()
    }

    /// Sets or unsets the language of the text, and nothing else.
    pub fn set_language(&mut self, language: Option<Language>)
        ensures { self.new
            ≡ record self.old {
              language = option_map (λ language. string_bytes language.0) language;
            } }
    {
        self.language = language;
    }

    /// Reads what the caller asks of a run.
    pub fn flags(&self) -> BufferFlags
        ensures { result ≡ self.now.flags }
    {
        self.flags
    }

    /// Sets what the caller asks of a run, and nothing else.
    pub fn set_flags(&mut self, flags: BufferFlags)
        ensures { self.new ≡ record self.old { flags = flags } }
    {
        self.flags = flags;
    }

    /// Reads how far clusters are merged.
    pub fn cluster_level(&self) -> BufferClusterLevel
        ensures { result ≡ self.now.cluster_level }
    {
        self.cluster_level
    }

    /// Sets how far clusters are merged, and nothing else.
    pub fn set_cluster_level(&mut self, cluster_level: BufferClusterLevel)
        ensures { self.new ≡ record self.old { cluster_level = cluster_level } }
    {
        self.cluster_level = cluster_level;
    }

    /// Reads the glyph that replaces default ignorables, if it is set.
    pub fn invisible_glyph(&self) -> Option<GlyphId>
        ensures { result ≡ self.now.invisible_glyph }
    {
        self.invisible_glyph
    }

    /// Sets or unsets the glyph that replaces default ignorables, and nothing else.
    pub fn set_invisible_glyph(&mut self, invisible_glyph: Option<GlyphId>)
        ensures { self.new ≡ record self.old { invisible_glyph = invisible_glyph } }
    {
        self.invisible_glyph = invisible_glyph;
    }

    /// Reads the glyph that replaces variation selectors without a variation glyph, if it is set.
    pub fn not_found_variation_selector_glyph(&self) -> Option<GlyphId>
        ensures { result ≡ self.now.not_found_variation_selector_glyph }
    {
        self.not_found_variation_selector_glyph
    }

    /// Sets or unsets the glyph that replaces variation selectors without a variation glyph, and
    /// nothing else.
    pub fn set_not_found_variation_selector_glyph(
        &mut self,
        not_found_variation_selector_glyph: Option<GlyphId>,
    )
        ensures { self.new
            ≡ record self.old {
              not_found_variation_selector_glyph = not_found_variation_selector_glyph;
            } }
    {
        self.not_found_variation_selector_glyph = not_found_variation_selector_glyph;
    }

    /// Reads what is kept of the text before this one: at most five characters, in their order.
    pub fn pre_context(&self) -> &[char]
        ensures value { result.now ≡ self.now.pre_context }
        ensures len { length result.now ≤ 5 }
    {
        self.pre_context.as_slice()
    }

    /// Keeps the last five characters of the text before this one, and sets nothing else.
    pub fn set_pre_context(&mut self, text: &str)
        ensures { self.new ≡ record self.old { pre_context = context_before text.now } }
    {
        self.pre_context = Context::from_end(text);
    }

    /// Reads what is kept of the text after this one: at most five characters, in their order.
    pub fn post_context(&self) -> &[char]
        ensures value { result.now ≡ self.now.post_context }
        ensures len { length result.now ≤ 5 }
    {
        self.post_context.as_slice()
    }

    /// Keeps the first five characters of the text after this one, and sets nothing else.
    pub fn set_post_context(&mut self, text: &str)
        ensures { self.new ≡ record self.old { post_context = context_after text.now } }
    {
        self.post_context = Context::from_start(text);
    }

    /// Reads what the run has seen of its text.
    pub fn scratch_flags(&self) -> ScratchFlags
        ensures { result ≡ self.now.scratch_flags }
    {
        self.scratch_flags
    }

    /// Sets what the run has seen of its text, and nothing else.
    pub fn set_scratch_flags(&mut self, scratch_flags: ScratchFlags)
        ensures { self.new ≡ record self.old { scratch_flags = scratch_flags } }
    {
        self.scratch_flags = scratch_flags;
    }

    /// Reads what lookups may still ask for, in units of about one look at a glyph: `usize::MAX` if
    /// no run has set a limit.
    pub fn max_ops(&self) -> usize
        ensures { result ≡ self.now.max_ops }
    {
        self.max_ops
    }

    /// Sets what lookups may still ask for, and nothing else.
    pub fn set_max_ops(&mut self, max_ops: usize)
        ensures { self.new ≡ record self.old { max_ops = max_ops } }
    {
        self.max_ops = max_ops;
    }

    /// Reads the ligature id that was given last, 0 if the run has given none.
    pub fn serial(&self) -> u8
        ensures { result ≡ self.now.serial }
    {
        self.serial
    }

    /// Sets the ligature id that was given last, and nothing else.
    pub fn set_serial(&mut self, serial: u8)
        ensures { self.new ≡ record self.old { serial = serial } }
    {
        self.serial = serial;
    }

    /// Gives the next ligature id: 1 to 7, and 1 again after 7, so never 0, which means no
    /// ligature. A lookup gives it to a ligature and to the marks that stood between its components
    /// (HarfBuzz, `_hb_allocate_lig_id`).
    pub fn allocate_lig_id(&mut self) -> u8
        ensures id { result ≡ next_ligature_id self.old.serial }
        ensures given { self.new ≡ record self.old { serial = next_ligature_id self.old.serial } }
        ensures some { (0 < result) × (result ≤ 7) }
    {
        self.serial = self.serial % 7 + 1;
        self.serial
    }
}
