//! What substitution notes of a glyph: its class, and whether and of what a lookup made it.
//!
//! The setter of the class drops bits that `GlyphPropsFlags` doesn't define, so it has no
//! condition, whatever the storage.
ghost use Rattle.std.specs.Prelude.{◌≡◌};
ghost use Rattle.std.specs.Int.RustNames.{bit_and};
ghost use Rattle.shape_items.specs.Items.{is_ignorable_item};

use crate::items::hb_glyph_info_t;
use shape_common::GlyphPropsFlags;

impl hb_glyph_info_t {
    /// Reads the flags of the glyph's class, which are flags of [`GlyphPropsFlags`].
    pub fn _hb_glyph_info_get_glyph_class(&self) -> GlyphPropsFlags
        ensures { result ≡ self.now.properties.glyph_class }
    {
        self.properties.glyph_class()
    }

    /// Sets the flags of the glyph's class, and nothing else. Bits that [`GlyphPropsFlags`] doesn't
    /// define are dropped.
    pub fn _hb_glyph_info_set_glyph_class(&mut self, glyph_class: GlyphPropsFlags)
        ensures { self.new
            ≡ record self.old {
              properties =
                  record self.old.properties {
                    glyph_class = record { 0 = bit_and glyph_class.0 14 };
                  };
            } }
    {
        self.properties.set_glyph_class(glyph_class);
    }

    /// Reads the substituted bit, of glyphs that a lookup has put in. That of a new item is unset.
    pub fn _hb_glyph_info_get_substituted(&self) -> bool
        ensures { result ≡ self.now.properties.substituted }
    {
        self.properties.substituted()
    }

    /// Sets or unsets the substituted bit, and nothing else.
    pub fn _hb_glyph_info_set_substituted(&mut self, substituted: bool)
        ensures { self.new
            ≡ record self.old {
              properties = record self.old.properties { substituted = substituted };
            } }
    {
        self.properties.set_substituted(substituted);
    }

    /// Whether a glyph stands for a default ignorable: its bit is set, and no lookup has put the
    /// glyph in.
    pub fn _hb_glyph_info_is_default_ignorable(&self) -> bool
        ensures { result ≡ is_ignorable_item self.now }
    {
        self.properties.ignorable() && !self.properties.substituted()
    }

    /// Reads the ligated bit, of ligatures that a lookup made. That of a new item is unset.
    pub fn _hb_glyph_info_get_ligated(&self) -> bool
        ensures { result ≡ self.now.properties.ligated }
    {
        self.properties.ligated()
    }

    /// Sets or unsets the ligated bit, and nothing else.
    pub fn _hb_glyph_info_set_ligated(&mut self, ligated: bool)
        ensures { self.new
            ≡ record self.old { properties = record self.old.properties { ligated = ligated } } }
    {
        self.properties.set_ligated(ligated);
    }

    /// Reads the multiplied bit, of the glyphs that a lookup put in for one glyph. That of a new
    /// item is unset.
    pub fn _hb_glyph_info_get_multiplied(&self) -> bool
        ensures { result ≡ self.now.properties.multiplied }
    {
        self.properties.multiplied()
    }

    /// Sets or unsets the multiplied bit, and nothing else.
    pub fn _hb_glyph_info_set_multiplied(&mut self, multiplied: bool)
        ensures { self.new
            ≡ record self.old {
              properties = record self.old.properties { multiplied = multiplied };
            } }
    {
        self.properties.set_multiplied(multiplied);
    }

    /// Reads the mark attachment class of the glyph (OpenType, `GDEF`, MarkAttachClassDef), by
    /// which lookups choose among marks. That of a new item is 0, for none.
    pub fn _hb_glyph_info_get_mark_attachment_class(&self) -> u8
        ensures { result ≡ self.now.properties.mark_attachment_class }
    {
        self.properties.mark_attachment_class()
    }

    /// Sets the mark attachment class of the glyph, and nothing else.
    pub fn _hb_glyph_info_set_mark_attachment_class(&mut self, mark_attachment_class: u8)
        ensures { self.new
            ≡ record self.old {
              properties =
                  record self.old.properties { mark_attachment_class = mark_attachment_class };
            } }
    {
        self.properties
            .set_mark_attachment_class(mark_attachment_class);
    }

    /// Reads the number of the ligature that the glyph is or belongs to. That of a new item is 0,
    /// for none.
    pub fn _hb_glyph_info_get_ligature_id(&self) -> u8
        ensures { result ≡ self.now.properties.ligature_id }
    {
        self.properties.ligature_id()
    }

    /// Sets the number of the ligature that the glyph is or belongs to, and nothing else.
    pub fn _hb_glyph_info_set_ligature_id(&mut self, ligature_id: u8)
        ensures { self.new
            ≡ record self.old {
              properties = record self.old.properties { ligature_id = ligature_id };
            } }
    {
        self.properties.set_ligature_id(ligature_id);
    }

    /// Reads the component of the ligature that a mark belongs to. That of a new item is 0, for
    /// none.
    pub fn _hb_glyph_info_get_ligature_component(&self) -> u8
        ensures { result ≡ self.now.properties.ligature_component }
    {
        self.properties.ligature_component()
    }

    /// Sets the component of the ligature that a mark belongs to, and nothing else.
    pub fn _hb_glyph_info_set_ligature_component(&mut self, ligature_component: u8)
        ensures { self.new
            ≡ record self.old {
              properties = record self.old.properties { ligature_component = ligature_component };
            } }
    {
        self.properties.set_ligature_component(ligature_component);
    }

    /// Reads how many components a ligature has. A new item has 1.
    pub fn _hb_glyph_info_get_number_of_components(&self) -> u8
        ensures { result ≡ self.now.properties.number_of_components }
    {
        self.properties.number_of_components()
    }

    /// Sets how many components a ligature has, and nothing else.
    pub fn _hb_glyph_info_set_number_of_components(&mut self, number_of_components: u8)
        ensures { self.new
            ≡ record self.old {
              properties =
                  record self.old.properties { number_of_components = number_of_components };
            } }
    {
        self.properties
            .set_number_of_components(number_of_components);
    }
}
