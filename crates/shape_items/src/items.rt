//! One item of a buffer: a character that becomes a glyph.
//!
//! The five fields are open to everybody; the named properties are read by `_hb_glyph_info_get_`
//! and set by `_hb_glyph_info_set_`, each followed by the property's name.
//!
//! The ccc keeps rustybuzz's name in accessors, `modified_combining_class`; elsewhere "class" is
//! a glyph's.
ghost use Rattle.std.specs.Prelude.{◌≡◌, ◌==◌, ◌||◌, ◌&&◌, nat_le};
ghost use Rattle.bit_fields.specs.Fields.{fields};
ghost use Rattle.shape_items.specs.UnicodeProps.{is_hidden_char};

mod glyph_properties;
mod shaper_properties;

use crate::properties::ItemProperties;
use bitflags::Flags;
use shape_common::{ScratchFlags, hb_unicode_funcs_t, hb_unicode_general_category_t};

/// U+034F, which keeps apart the marks around it.
const COMBINING_GRAPHEME_JOINER: char = '\u{34F}';

/// U+180B. Before it CGJ alone is hidden, and there are no joiners.
const FIRST_MONGOLIAN_SELECTOR: char = '\u{180B}';

/// U+180F. From it up to ZWNJ, and from ZWJ up to the tags, no character is hidden.
const LAST_MONGOLIAN_SELECTOR: char = '\u{180F}';

/// U+E0020, the first of the tags.
const FIRST_TAG: char = '\u{E0020}';

const ZERO_WIDTH_NON_JOINER: char = '\u{200C}';

const ZERO_WIDTH_JOINER: char = '\u{200D}';

/// A set of bits of a glyph: the features that are on for it, and the three defined flags.
pub type hb_mask_t = u32;

/// A line mustn't end before this glyph without shaping again.
pub const UNSAFE_TO_BREAK: hb_mask_t = 1;

/// Texts mustn't be joined before this glyph without shaping again.
pub const UNSAFE_TO_CONCAT: hb_mask_t = 2;

/// An elongation may be put in before this glyph.
pub const SAFE_TO_INSERT_TATWEEL: hb_mask_t = 4;

/// The three flags together; the other bits of a mask are features.
pub const DEFINED: hb_mask_t = 7;

/// An item: its character, the index that the face returns for it, the glyph that lookups make of
/// it, its mask, and the cluster that leads back to the text.
#[derive(Clone, Copy, Debug)]
pub struct hb_glyph_info_t {
    pub codepoint: char,
    pub glyph_index: u32,
    pub glyph_id: u32,
    pub mask: hb_mask_t,
    pub cluster: u32,
    properties: ItemProperties,
}

const _: () = prove!(size_of::<hb_glyph_info_t>() == 32);

impl hb_glyph_info_t {
    ghost use Rattle.shape_items.specs.Items.{new_item, put_in};
    ghost use Rattle.shape_common.specs.Category.{is_mark_category};
    ghost use Rattle.shape_items.specs.UnicodeProps.{with_unicode_props, with_scratch_of};
    ghost use Rattle.shape_items.specs.Words.{first_widths, first_values};
    ghost use Rattle.shape_items.specs.Words.{second_widths, second_values};

    /// An item for a character of a text: no glyph, no mask, category UppercaseLetter, no other
    /// properties, one ligature component.
    pub fn new(c: char, cluster: u32) -> Self
        ensures { result ≡ new_item c cluster }
    {
        hb_glyph_info_t {
            codepoint: c,
            glyph_index: 0,
            glyph_id: 0,
            mask: 0,
            cluster,
            properties: ItemProperties::new(),
        }
    }

    /// The named properties in two words, as they are stored.
    ///
    /// - First word: 0 to 7 category, 8 to 15 ccc, 16 to 23 space type, 24 ignorable, 25 hidden, 26
    ///   continuation, 27 ZWJ, 28 ZWNJ, 29 selector mark; 30 and 31 are 0.
    /// - Second word: 0 to 3 glyph class, 4 substituted, 5 ligated, 6 multiplied; 7 is 0; 8 to 15
    ///   mark attachment class, 16 to 23 ligature id, 24 to 31 component, 32 to 39 number of
    ///   components, 40 to 47 syllable, 48 to 55 the shaper's category, 56 to 63 its auxiliary
    ///   byte.
    ///
    /// A category's number is its place among the variants, from 0.
    pub fn words(&self) -> (u32, u64)
        ensures first { fields first_widths result.0 ≡ first_values self.now.properties }
        ensures second { fields second_widths result.1 ≡ second_values self.now.properties }
    {
        self.properties.words()
    }

    /// Sets the eight properties that depend on the character alone; the others stay. Adds to
    /// `scratch_flags` what the character shows of its text. Inlined into the walk over a text, so
    /// that an item needn't be written to memory for the call.
    #[inline(always)]
    pub fn init_unicode_props<U: hb_unicode_funcs_t>(&mut self, scratch_flags: &mut ScratchFlags)
        ensures item { self.new ≡ with_unicode_props U.unicode self.old }
        ensures flags { scratch_flags.new
            ≡ with_scratch_of U.unicode self.old.codepoint scratch_flags.old }
    {
        let c = self.codepoint;
        let category = U::general_category(c);
        if c < '\u{80}' {
            self.properties.set_for_plain(category, 0, false, false);
            return;
        }
        scratch_flags.insert(ScratchFlags::HAS_NON_ASCII);
        let ignorable = U::is_default_ignorable(c);
        if ignorable {
            scratch_flags.insert(ScratchFlags::HAS_DEFAULT_IGNORABLES);
        }
        if category.is_mark() {
            self.properties
                .set_for_plain(category, U::modified_combining_class(c), ignorable, true);
        } else if ignorable {
            self.properties.set_for_plain(category, 0, true, false);
        } else {
            self.properties.set_for_plain(category, 0, false, false);
        }
        if may_be_hidden(c) {
            self.properties.set_hidden(is_hidden(c));
            self.properties.set_zwj(c == ZERO_WIDTH_JOINER);
            self.properties.set_zwnj(c == ZERO_WIDTH_NON_JOINER);
        }
        if c == COMBINING_GRAPHEME_JOINER {
            scratch_flags.insert(ScratchFlags::HAS_CGJ);
        }
    }

    /// Puts the item into a cluster; if its cluster changes it loses its defined flags.
    pub(crate) fn put_in(&mut self, cluster: u32)
        ensures { self.new ≡ put_in cluster self.old }
    {
        if self.cluster != cluster {
            self.cluster = cluster;
            self.mask &= !DEFINED;
        }
    }

    /// Whether the category is one of the three of marks.
    pub fn _hb_glyph_info_is_unicode_mark(&self) -> bool
        ensures { result ≡ is_mark_category self.now.properties.general_category }
    {
        self.properties.is_mark()
    }

    /// Reads the general category: `init_unicode_props` sets it to the character's.
    pub fn _hb_glyph_info_get_general_category(&self) -> hb_unicode_general_category_t
        ensures { result ≡ self.now.properties.general_category }
    {
        self.properties.general_category()
    }

    /// Sets the general category of the item, and nothing else.
    pub fn _hb_glyph_info_set_general_category(
        &mut self,
        general_category: hb_unicode_general_category_t,
    )
        ensures { self.new
            ≡ record self.old {
              properties = record self.old.properties { general_category = general_category };
            } }
    {
        self.properties.set_general_category(general_category);
    }

    /// Reads the modified combining class: `init_unicode_props` sets it to the character's for
    /// marks of U+0080 and more, and to 0 for all others.
    pub fn _hb_glyph_info_get_modified_combining_class(&self) -> u8
        ensures { result ≡ self.now.properties.modified_ccc }
    {
        self.properties.modified_ccc()
    }

    /// Sets the modified combining class, and nothing else.
    pub fn _hb_glyph_info_set_modified_combining_class(&mut self, modified_ccc: u8)
        ensures { self.new
            ≡ record self.old {
              properties = record self.old.properties { modified_ccc = modified_ccc };
            } }
    {
        self.properties.set_modified_ccc(modified_ccc);
    }

    /// Reads the ignorable bit: `init_unicode_props` sets it for default ignorables of U+0080 and
    /// more, and unsets it for all others.
    pub fn _hb_glyph_info_get_ignorable(&self) -> bool
        ensures { result ≡ self.now.properties.ignorable }
    {
        self.properties.ignorable()
    }

    /// Sets or unsets the ignorable bit, and nothing else.
    pub fn _hb_glyph_info_set_ignorable(&mut self, ignorable: bool)
        ensures { self.new
            ≡ record self.old {
              properties = record self.old.properties { ignorable = ignorable };
            } }
    {
        self.properties.set_ignorable(ignorable);
    }

    /// Reads the hidden bit. A lookup that skips ignorable characters doesn't skip one that is
    /// hidden: `init_unicode_props` sets it for U+180B to U+180D, U+180F, U+E0020 to U+E007F and
    /// U+034F, and unsets it for all others.
    pub fn _hb_glyph_info_get_hidden(&self) -> bool
        ensures { result ≡ self.now.properties.hidden }
    {
        self.properties.hidden()
    }

    /// Sets or unsets the hidden bit, and nothing else.
    pub fn _hb_glyph_info_set_hidden(&mut self, hidden: bool)
        ensures { self.new
            ≡ record self.old { properties = record self.old.properties { hidden = hidden } } }
    {
        self.properties.set_hidden(hidden);
    }

    /// Reads the continuation bit, of items that continue the grapheme before them:
    /// `init_unicode_props` sets it for marks of U+0080 and more, and unsets it for all others.
    pub fn _hb_glyph_info_get_continuation(&self) -> bool
        ensures { result ≡ self.now.properties.continuation }
    {
        self.properties.continuation()
    }

    /// Sets or unsets the continuation bit, and nothing else.
    pub fn _hb_glyph_info_set_continuation(&mut self, continuation: bool)
        ensures { self.new
            ≡ record self.old {
              properties = record self.old.properties { continuation = continuation };
            } }
    {
        self.properties.set_continuation(continuation);
    }

    /// Reads the bit of zero width joiners: `init_unicode_props` sets it for U+200D, and unsets it
    /// for all others.
    pub fn _hb_glyph_info_get_zwj(&self) -> bool
        ensures { result ≡ self.now.properties.zwj }
    {
        self.properties.zwj()
    }

    /// Sets or unsets the bit of zero width joiners, and nothing else.
    pub fn _hb_glyph_info_set_zwj(&mut self, zwj: bool)
        ensures { self.new
            ≡ record self.old { properties = record self.old.properties { zwj = zwj } } }
    {
        self.properties.set_zwj(zwj);
    }

    /// Reads the bit of zero width non-joiners: `init_unicode_props` sets it for U+200C, and unsets
    /// it for all others.
    pub fn _hb_glyph_info_get_zwnj(&self) -> bool
        ensures { result ≡ self.now.properties.zwnj }
    {
        self.properties.zwnj()
    }

    /// Sets or unsets the bit of zero width non-joiners, and nothing else.
    pub fn _hb_glyph_info_set_zwnj(&mut self, zwnj: bool)
        ensures { self.new
            ≡ record self.old { properties = record self.old.properties { zwnj = zwnj } } }
    {
        self.properties.set_zwnj(zwnj);
    }

    /// Reads the remembered type of a space without a glyph: `init_unicode_props` sets it to 0, for
    /// none.
    pub fn _hb_glyph_info_get_space_type(&self) -> u8
        ensures { result ≡ self.now.properties.space_type }
    {
        self.properties.space_type()
    }

    /// Sets the remembered type of a space without a glyph, and nothing else.
    pub fn _hb_glyph_info_set_space_type(&mut self, space_type: u8)
        ensures { self.new
            ≡ record self.old {
              properties = record self.old.properties { space_type = space_type };
            } }
    {
        self.properties.set_space_type(space_type);
    }

    /// Reads the selector mark, of a variation selector for which the face has no variation glyph
    /// with the item before it. A new item has none.
    pub fn _hb_glyph_info_get_selector_mark(&self) -> bool
        ensures { result ≡ self.now.properties.selector_mark }
    {
        self.properties.selector_mark()
    }

    /// Sets or unsets the selector mark, of a variation selector for which the face has no
    /// variation glyph with the item before it, and nothing else.
    pub fn _hb_glyph_info_set_selector_mark(&mut self, selector_mark: bool)
        ensures { self.new
            ≡ record self.old {
              properties = record self.old.properties { selector_mark = selector_mark };
            } }
    {
        self.properties.set_selector_mark(selector_mark);
    }
}

/// Whether a character stands where some are hidden, or joiners: at CGJ, among the Mongolian
/// selectors, at ZWNJ and ZWJ, or from the tags on.
fn may_be_hidden(c: char) -> bool
    ensures { result ≡ (c == 0x34F || (nat_le 0x180B c && (nat_le c 0x180F
        || (nat_le 0x200C c && (nat_le c 0x200D || nat_le 0xE0020 c))))) }
{
    c == COMBINING_GRAPHEME_JOINER
        || FIRST_MONGOLIAN_SELECTOR <= c
            && (c <= LAST_MONGOLIAN_SELECTOR
                || ZERO_WIDTH_NON_JOINER <= c && (c <= ZERO_WIDTH_JOINER || FIRST_TAG <= c))
}

/// Whether lookups see a character though it is ignorable: Mongolian variation selectors, tags, and
/// CGJ.
fn is_hidden(c: char) -> bool
    ensures { result ≡ is_hidden_char c }
{
    matches!(
        c,
        FIRST_MONGOLIAN_SELECTOR..='\u{180D}' | '\u{180F}' | FIRST_TAG..='\u{E007F}' | COMBINING_GRAPHEME_JOINER
    )
}
