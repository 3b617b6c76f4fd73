//! The named properties of an item, and how they are stored.
//!
//! Contracts see the record `Properties` of `specs/Properties.antt` and never the storage, so the
//! storage may change without a change of any clause. It is two words, of 32 and of 64 bits, in
//! which each property has a field of its own (`specs/Words.antt`).
//!
//! Bits without use are 0 in every item, by the invariant of the words: only so do the properties
//! decide the words. The second word is kept in two halves: a u64 is aligned by 8 bytes, and an
//! item with it would take 40 bytes in place of 32. No field crosses the middle.
ghost use Rattle.std.specs.Prelude.{◌≡◌, ◌&&◌, false, nat_le};
ghost use Rattle.std.specs.Int.RustNames.{bit_and};
ghost use Rattle.bit_fields.specs.Fields.{fields};
ghost use Rattle.shape_items.specs.Properties.{Properties};
ghost use Rattle.shape_items.specs.Words.{properties_of, AreWords, first_word, lower_word, upper_word};
ghost use Rattle.shape_items.specs.Words.{first_widths, first_values, second_widths, second_values};
ghost use Rattle.shape_items.specs.WordLaws.{made_again};

use bit_fields::{join, put_bit, put_byte, put_field, read_bit, read_byte, read_field};
use shape_common::{GlyphPropsFlags, hb_unicode_general_category_t};
use std::marker::Model;

const GENERAL_CATEGORY: u32 = 0;

const MODIFIED_CCC: u32 = 8;

const SPACE_TYPE: u32 = 16;

const IGNORABLE: u32 = 24;

const HIDDEN: u32 = 25;

const CONTINUATION: u32 = 26;

const ZWJ: u32 = 27;

const ZWNJ: u32 = 28;

const SELECTOR_MARK: u32 = 29;

const GLYPH_CLASS: u32 = 0;

const SUBSTITUTED: u32 = 4;

const LIGATED: u32 = 5;

const MULTIPLIED: u32 = 6;

const MARK_ATTACHMENT_CLASS: u32 = 8;

const LIGATURE_ID: u32 = 16;

const LIGATURE_COMPONENT: u32 = 24;

const NUMBER_OF_COMPONENTS: u32 = 0;

const SYLLABLE: u32 = 8;

const SHAPER_CATEGORY: u32 = 16;

const SHAPER_AUXILIARY: u32 = 24;

/// The named properties of an item, by the bits of its words:
/// - First word: 0 to 7 category, 8 to 15 ccc, 16 to 23 space type, 24 ignorable, 25 hidden, 26
///   continuation, 27 ZWJ, 28 ZWNJ, 29 selector mark; 30 and 31 are 0.
/// - Lower half of the second: 0 to 3 glyph class, 4 substituted, 5 ligated, 6 multiplied, 7 is 0,
///   8 to 15 mark attachment class, 16 to 23 ligature id, 24 to 31 ligature component.
/// - Upper half: 0 to 7 number of components, 8 to 15 syllable, 16 to 23 the shaper's category, 24
///   to 31 its auxiliary byte.
#[derive(Clone, Copy, Debug)]
pub(crate) struct ItemProperties {
    first: u32,
    lower: u32,
    upper: u32,
}

impl Model for ItemProperties {
    ghost Value = { Properties };

    ghost view = { λ p. properties_of p.first p.lower p.upper };

    ghost invariant = { λ p. AreWords p.first p.lower p.upper };

    ghost inverse = { λ p. record {
      first = first_word p;
      lower = lower_word p;
      upper = upper_word p;
    } };

    ghost inverse_ok = { made_again };
}

/// Whether a category of this number is one of the three of marks, which stand side by side.
fn is_mark_number(number: u8) -> bool
    ensures { result ≡ (nat_le 5 number && nat_le number 7) }
{
    matches!(number, 5..=7)
}

/// What each property is, its accessors say (`_hb_glyph_info_get_` and `_hb_glyph_info_set_`).
impl ItemProperties {
    ghost use Rattle.shape_common.specs.Category.{is_mark_category};
    ghost use Rattle.shape_items.specs.Items.{new_properties};

    /// Those of a new item: one ligature component, and 0 in all other fields.
    pub(crate) fn new() -> Self
        ensures { result ≡ new_properties }
    {
        ItemProperties {
            first: 0,
            lower: 0,
            upper: 1,
        }
    }

    /// Sets the eight properties that depend on a character, for one that is no joiner and isn't
    /// hidden. Compiled, this is one write of the first word.
    pub(crate) fn set_for_plain(
        &mut self,
        general_category: hb_unicode_general_category_t,
        modified_ccc: u8,
        ignorable: bool,
        continuation: bool,
    )
        ensures { self.new ≡ record self.old {
          general_category = general_category;
          modified_ccc = modified_ccc;
          space_type = 0;
          ignorable = ignorable;
          hidden = false;
          continuation = continuation;
          zwj = false;
          zwnj = false;
        } }
    {
        self.set_general_category(general_category);
        self.set_modified_ccc(modified_ccc);
        self.set_space_type(0);
        self.set_ignorable(ignorable);
        self.set_hidden(false);
        self.set_continuation(continuation);
        self.set_zwj(false);
        self.set_zwnj(false);
    }

    /// The two words, the second one joined from its halves.
    pub(crate) fn words(&self) -> (u32, u64)
        ensures first { fields first_widths result.0 ≡ first_values self.now }
        ensures second { fields second_widths result.1 ≡ second_values self.now }
    {
        (self.first, join(self.lower, self.upper))
    }

    pub(crate) fn general_category(&self) -> hb_unicode_general_category_t
        ensures { result ≡ self.now.general_category }
    {
        hb_unicode_general_category_t::of_number(read_byte(self.first, GENERAL_CATEGORY))
    }

    /// Whether the category is one of the three of marks, by its number.
    pub(crate) fn is_mark(&self) -> bool
        ensures { result ≡ is_mark_category self.now.general_category }
    {
        is_mark_number(read_byte(self.first, GENERAL_CATEGORY))
    }

    pub(crate) fn set_general_category(&mut self, general_category: hb_unicode_general_category_t)
        ensures { self.new ≡ record self.old { general_category = general_category } }
    {
        self.first = put_byte(self.first, GENERAL_CATEGORY, general_category.number());
    }

    pub(crate) fn modified_ccc(&self) -> u8
        ensures { result ≡ self.now.modified_ccc }
    {
        read_byte(self.first, MODIFIED_CCC)
    }

    pub(crate) fn set_modified_ccc(&mut self, modified_ccc: u8)
        ensures { self.new ≡ record self.old { modified_ccc = modified_ccc } }
    {
        self.first = put_byte(self.first, MODIFIED_CCC, modified_ccc);
    }

    pub(crate) fn space_type(&self) -> u8
        ensures { result ≡ self.now.space_type }
    {
        read_byte(self.first, SPACE_TYPE)
    }

    pub(crate) fn set_space_type(&mut self, space_type: u8)
        ensures { self.new ≡ record self.old { space_type = space_type } }
    {
        self.first = put_byte(self.first, SPACE_TYPE, space_type);
    }

    pub(crate) fn ignorable(&self) -> bool
        ensures { result ≡ self.now.ignorable }
    {
        read_bit(self.first, IGNORABLE)
    }

    pub(crate) fn set_ignorable(&mut self, ignorable: bool)
        ensures { self.new ≡ record self.old { ignorable = ignorable } }
    {
        self.first = put_bit(self.first, IGNORABLE, ignorable);
    }

    pub(crate) fn hidden(&self) -> bool
        ensures { result ≡ self.now.hidden }
    {
        read_bit(self.first, HIDDEN)
    }

    pub(crate) fn set_hidden(&mut self, hidden: bool)
        ensures { self.new ≡ record self.old { hidden = hidden } }
    {
        self.first = put_bit(self.first, HIDDEN, hidden);
    }

    pub(crate) fn continuation(&self) -> bool
        ensures { result ≡ self.now.continuation }
    {
        read_bit(self.first, CONTINUATION)
    }

    pub(crate) fn set_continuation(&mut self, continuation: bool)
        ensures { self.new ≡ record self.old { continuation = continuation } }
    {
        self.first = put_bit(self.first, CONTINUATION, continuation);
    }

    pub(crate) fn zwj(&self) -> bool
        ensures { result ≡ self.now.zwj }
    {
        read_bit(self.first, ZWJ)
    }

    pub(crate) fn set_zwj(&mut self, zwj: bool)
        ensures { self.new ≡ record self.old { zwj = zwj } }
    {
        self.first = put_bit(self.first, ZWJ, zwj);
    }

    pub(crate) fn zwnj(&self) -> bool
        ensures { result ≡ self.now.zwnj }
    {
        read_bit(self.first, ZWNJ)
    }

    pub(crate) fn set_zwnj(&mut self, zwnj: bool)
        ensures { self.new ≡ record self.old { zwnj = zwnj } }
    {
        self.first = put_bit(self.first, ZWNJ, zwnj);
    }

    pub(crate) fn selector_mark(&self) -> bool
        ensures { result ≡ self.now.selector_mark }
    {
        read_bit(self.first, SELECTOR_MARK)
    }

    pub(crate) fn set_selector_mark(&mut self, selector_mark: bool)
        ensures { self.new ≡ record self.old { selector_mark = selector_mark } }
    {
        self.first = put_bit(self.first, SELECTOR_MARK, selector_mark);
    }

    pub(crate) fn glyph_class(&self) -> GlyphPropsFlags
        ensures { result ≡ self.now.glyph_class }
    {
        GlyphPropsFlags(read_field(self.lower, GLYPH_CLASS, 4) as u16)
    }

    pub(crate) fn set_glyph_class(&mut self, glyph_class: GlyphPropsFlags)
        ensures { self.new
            ≡ record self.old { glyph_class = record { 0 = bit_and glyph_class.0 14 } } }
    {
        self.lower = put_field(self.lower, GLYPH_CLASS, 4, u32::from(glyph_class.0 & 14));
    }

    pub(crate) fn substituted(&self) -> bool
        ensures { result ≡ self.now.substituted }
    {
        read_bit(self.lower, SUBSTITUTED)
    }

    pub(crate) fn set_substituted(&mut self, substituted: bool)
        ensures { self.new ≡ record self.old { substituted = substituted } }
    {
        self.lower = put_bit(self.lower, SUBSTITUTED, substituted);
    }

    pub(crate) fn ligated(&self) -> bool
        ensures { result ≡ self.now.ligated }
    {
        read_bit(self.lower, LIGATED)
    }

    pub(crate) fn set_ligated(&mut self, ligated: bool)
        ensures { self.new ≡ record self.old { ligated = ligated } }
    {
        self.lower = put_bit(self.lower, LIGATED, ligated);
    }

    pub(crate) fn multiplied(&self) -> bool
        ensures { result ≡ self.now.multiplied }
    {
        read_bit(self.lower, MULTIPLIED)
    }

    pub(crate) fn set_multiplied(&mut self, multiplied: bool)
        ensures { self.new ≡ record self.old { multiplied = multiplied } }
    {
        self.lower = put_bit(self.lower, MULTIPLIED, multiplied);
    }

    pub(crate) fn mark_attachment_class(&self) -> u8
        ensures { result ≡ self.now.mark_attachment_class }
    {
        read_byte(self.lower, MARK_ATTACHMENT_CLASS)
    }

    pub(crate) fn set_mark_attachment_class(&mut self, mark_attachment_class: u8)
        ensures { self.new ≡ record self.old { mark_attachment_class = mark_attachment_class } }
    {
        self.lower = put_byte(self.lower, MARK_ATTACHMENT_CLASS, mark_attachment_class);
    }

    pub(crate) fn ligature_id(&self) -> u8
        ensures { result ≡ self.now.ligature_id }
    {
        read_byte(self.lower, LIGATURE_ID)
    }

    pub(crate) fn set_ligature_id(&mut self, ligature_id: u8)
        ensures { self.new ≡ record self.old { ligature_id = ligature_id } }
    {
        self.lower = put_byte(self.lower, LIGATURE_ID, ligature_id);
    }

    pub(crate) fn ligature_component(&self) -> u8
        ensures { result ≡ self.now.ligature_component }
    {
        read_byte(self.lower, LIGATURE_COMPONENT)
    }

    pub(crate) fn set_ligature_component(&mut self, ligature_component: u8)
        ensures { self.new ≡ record self.old { ligature_component = ligature_component } }
    {
        self.lower = put_byte(self.lower, LIGATURE_COMPONENT, ligature_component);
    }

    pub(crate) fn number_of_components(&self) -> u8
        ensures { result ≡ self.now.number_of_components }
    {
        read_byte(self.upper, NUMBER_OF_COMPONENTS)
    }

    pub(crate) fn set_number_of_components(&mut self, number_of_components: u8)
        ensures { self.new ≡ record self.old { number_of_components = number_of_components } }
    {
        self.upper = put_byte(self.upper, NUMBER_OF_COMPONENTS, number_of_components);
    }

    pub(crate) fn syllable(&self) -> u8
        ensures { result ≡ self.now.syllable }
    {
        read_byte(self.upper, SYLLABLE)
    }

    pub(crate) fn set_syllable(&mut self, syllable: u8)
        ensures { self.new ≡ record self.old { syllable = syllable } }
    {
        self.upper = put_byte(self.upper, SYLLABLE, syllable);
    }

    pub(crate) fn shaper_category(&self) -> u8
        ensures { result ≡ self.now.shaper_category }
    {
        read_byte(self.upper, SHAPER_CATEGORY)
    }

    pub(crate) fn set_shaper_category(&mut self, shaper_category: u8)
        ensures { self.new ≡ record self.old { shaper_category = shaper_category } }
    {
        self.upper = put_byte(self.upper, SHAPER_CATEGORY, shaper_category);
    }

    pub(crate) fn shaper_auxiliary(&self) -> u8
        ensures { result ≡ self.now.shaper_auxiliary }
    {
        read_byte(self.upper, SHAPER_AUXILIARY)
    }

    pub(crate) fn set_shaper_auxiliary(&mut self, shaper_auxiliary: u8)
        ensures { self.new ≡ record self.old { shaper_auxiliary = shaper_auxiliary } }
    {
        self.upper = put_byte(self.upper, SHAPER_AUXILIARY, shaper_auxiliary);
    }
}
