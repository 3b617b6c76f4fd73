//! Rules of substitution. Each stands for a lookup with one rule: it is on for the items whose
//! masks have a bit of its feature, or for all if the feature is 0.

use shape_buffer::buffer::hb_mask_t;

/// One glyph in place of another.
#[derive(Clone, Copy, Debug)]
pub struct Single {
    pub feature: hb_mask_t,
    pub from: u32,
    pub to: u32,
}

/// Two glyphs in place of one, in its cluster.
#[derive(Clone, Copy, Debug)]
pub struct Multiple {
    pub feature: hb_mask_t,
    pub from: u32,
    pub first: u32,
    pub second: u32,
}

/// One glyph in place of two, whose clusters are merged.
#[derive(Clone, Copy, Debug)]
pub struct Ligature {
    pub feature: hb_mask_t,
    pub first: u32,
    pub second: u32,
    pub into: u32,
}

/// A stage of substitution.
#[derive(Clone, Copy, Debug)]
pub enum Stage {
    /// Adds a number to every glyph, bits past 32 dropped.
    Add(u32),
    Single(Single),
    Multiple(Multiple),
    Ligature(Ligature),
}
