//! The settings that clearing keeps.
//!
//! A hook or a lookup may have changed them before a later one was refused. What is returned then
//! is the caller's buffer cleared, so these settings are put back as the caller had them.
ghost use Rattle.std.specs.Prelude.{◌≡◌};
ghost use Rattle.shape_items.specs.Buffer.{Buffer, new_buffer};
ghost use Rattle.shape_pipeline.specs.SettingsPutBack.{kept_settings, cleared_with};

use shape_buffer::buffer::{BufferClusterLevel, BufferFlags, GlyphId, hb_buffer_t};

/// What a caller asks of its runs, whatever their texts.
#[derive(Clone, Copy)]
pub(crate) struct KeptSettings {
    flags: BufferFlags,
    cluster_level: BufferClusterLevel,
    invisible_glyph: Option<GlyphId>,
    not_found_variation_selector_glyph: Option<GlyphId>,
}

impl KeptSettings {
    /// Those of a buffer.
    pub(crate) fn of(buffer: &hb_buffer_t) -> Self
        ensures { result ≡ kept_settings buffer.now }
    {
        KeptSettings {
            flags: buffer.flags(),
            cluster_level: buffer.cluster_level(),
            invisible_glyph: buffer.invisible_glyph(),
            not_found_variation_selector_glyph: buffer.not_found_variation_selector_glyph(),
        }
    }

    /// Clears a buffer and gives it these settings. Takes no memory.
    pub(crate) fn clear(self, buffer: &mut hb_buffer_t)
        ensures { buffer.new ≡ cleared_with self }
    {
        buffer.reset();
        buffer.set_flags(self.flags);
        buffer.set_cluster_level(self.cluster_level);
        buffer.set_invisible_glyph(self.invisible_glyph);
        buffer.set_not_found_variation_selector_glyph(self.not_found_variation_selector_glyph);
    }
}
