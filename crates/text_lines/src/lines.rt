//! What a paragraph is laid out in: lines, their runs from left to right, and the glyphs of each.
/// A glyph, in units of the paragraph.
#[derive(Clone, Copy, PartialEq, Eq, Debug)]
pub struct Glyph {
    /// Its number in the font.
    pub glyph: u32,
    /// Where its text begins, in bytes.
    pub cluster: u32,
    /// How far it moves the pen to the right.
    pub x_advance: i32,
    /// How far it moves the pen upwards.
    pub y_advance: i32,
    /// How far it is drawn to the right of the pen.
    pub x_offset: i32,
    /// How far it is drawn above the pen.
    pub y_offset: i32,
}

/// A part of a line in one font and one direction.
#[derive(Drop, Debug)]
pub struct TextRun {
    /// Where its text begins, in bytes.
    pub start: usize,
    /// Where its text ends, in bytes.
    pub end: usize,
    /// The number of its font in the list.
    pub font: usize,
    /// Its level: odd if it runs from right to left.
    pub level: u8,
    /// Where the pen stands at its left end, seen from the left end of the first run.
    pub x: i64,
    /// Its glyphs from left to right.
    pub glyphs: Vec<Glyph>,
}

/// A line of a paragraph.
#[derive(Drop, Debug)]
pub struct TextLine {
    /// Where its text begins, in bytes.
    pub start: usize,
    /// Where its text ends, in bytes.
    pub end: usize,
    /// The level of its paragraph: odd if lines begin at the right.
    pub level: u8,
    /// Where the first run begins, seen from the left edge of the line: 0, or a number below that
    /// if the line runs from right to left and spaces hang there.
    pub left: i64,
    /// How wide it is without the spaces that stand last in it, which hang.
    pub width: i64,
    /// How far it reaches above its baseline: the most of its fonts.
    pub ascent: i32,
    /// How far it reaches below its baseline, a number that is never positive: the least of its
    /// fonts.
    pub descent: i32,
    /// Its runs from left to right.
    pub runs: Vec<TextRun>,
    /// Where each of its runs stands from left to right, in the order of the text.
    pub logical: Vec<usize>,
}
