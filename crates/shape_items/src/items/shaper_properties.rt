//! What a script shaper notes of an item, for its own hooks. Of these notes lookups may read the
//! syllable alone.
ghost use Rattle.std.specs.Prelude.{◌≡◌};

use crate::items::hb_glyph_info_t;

impl hb_glyph_info_t {
    /// Reads the syllable that a script shaper puts the item in. That of a new item is 0.
    pub fn _hb_glyph_info_get_syllable(&self) -> u8
        ensures { result ≡ self.now.properties.syllable }
    {
        self.properties.syllable()
    }

    /// Sets the syllable that a script shaper puts the item in, and nothing else.
    pub fn _hb_glyph_info_set_syllable(&mut self, syllable: u8)
        ensures { self.new
            ≡ record self.old { properties = record self.old.properties { syllable = syllable } } }
    {
        self.properties.set_syllable(syllable);
    }

    /// Reads the script shaper's own category. That of a new item is 0.
    pub fn _hb_glyph_info_get_shaper_category(&self) -> u8
        ensures { result ≡ self.now.properties.shaper_category }
    {
        self.properties.shaper_category()
    }

    /// Sets the script shaper's own category, and nothing else.
    pub fn _hb_glyph_info_set_shaper_category(&mut self, shaper_category: u8)
        ensures { self.new
            ≡ record self.old {
              properties = record self.old.properties { shaper_category = shaper_category };
            } }
    {
        self.properties.set_shaper_category(shaper_category);
    }

    /// Reads the script shaper's auxiliary byte. That of a new item is 0.
    pub fn _hb_glyph_info_get_shaper_auxiliary(&self) -> u8
        ensures { result ≡ self.now.properties.shaper_auxiliary }
    {
        self.properties.shaper_auxiliary()
    }

    /// Sets the script shaper's auxiliary byte, and nothing else.
    pub fn _hb_glyph_info_set_shaper_auxiliary(&mut self, shaper_auxiliary: u8)
        ensures { self.new
            ≡ record self.old {
              properties = record self.old.properties { shaper_auxiliary = shaper_auxiliary };
            } }
    {
        self.properties.set_shaper_auxiliary(shaper_auxiliary);
    }
}
