//! A lookup as a plan applies it.

use font_sizes::Scale;

/// A lookup of a plan: the tables that it reads, where it stands, its flags, and for which glyphs
/// it is on.
#[derive(Clone, Copy)]
pub struct Lookup<'a> {
    /// The table of lookups: `GSUB`, or `GPOS` if `positioning`.
    pub table: &'a [u8],
    /// The table `GDEF`.
    pub gdef: &'a [u8],
    /// The coordinates of the font, normalized, in units of 1/16384; none for its default instance.
    pub coordinates: &'a [i32],
    /// What devices of `GPOS` may cost at each item for each subtable; 0 for the default instance.
    pub device_work: u32,
    /// What the numbers of `GPOS` are multiplied by; none for a font at no size.
    pub scale: Option<Scale>,
    /// Where the lookup stands in `table`, in bytes.
    pub place: usize,
    /// Its flags: which classes of glyphs it skips.
    pub flags: u16,
    /// The set of marks that it sees, if its flags have one.
    pub mark_set: u16,
    /// The bits of a mask for which it is on.
    pub mask: u32,
    /// The least of these bits: a value in a mask is counted in it.
    pub unit: u32,
    /// Whether ZWNJ (U+200C) is passed over around what is matched.
    pub auto_zwnj: bool,
    /// Whether ZWJ (U+200D) is passed over within what is matched.
    pub auto_zwj: bool,
    /// Whether a match stays in one syllable.
    pub per_syllable: bool,
    /// Whether the greatest value of a mask picks an alternate at random.
    pub random: bool,
    /// Whether `table` is `GPOS`, which passes over more.
    pub positioning: bool,
}
