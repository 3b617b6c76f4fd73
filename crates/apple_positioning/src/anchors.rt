//! Anchor points: points of a glyph by number, by the table `ankr`.
ghost use Rattle.std.specs.Prelude.{◌≡◌, ◌<◌, ◌^◌};
ghost use Rattle.std.specs.Option.{IfSome};
ghost use Rattle.apple_positioning.specs.Anchors as anchor_rules;

use apple_tables::Lookup;
use shape_font::bytes::{i16_at, records, u16_at, u32_at, word};

/// The table, and how many glyphs the font has.
#[derive(Clone, Copy, Debug)]
pub struct Anchors<'a> {
    /// The table `ankr`.
    pub table: &'a [u8],
    /// How many glyphs the font has.
    pub glyphs: u32,
}

/// A point, in units of the em square.
#[derive(Clone, Copy, PartialEq, Eq, Debug)]
pub struct Anchor {
    /// To the right.
    pub x: i32,
    /// Upwards.
    pub y: i32,
}

/// Whether no glyph has points: the version isn't read, or there is no lookup table.
fn is_empty(table: &[u8]) -> bool
    ensures { result ≡ anchor_rules.is_empty table.now }
{
    u16_at(table, 0) != 0 || u32_at(table, 4) == 0
}

/// Where a point stands among those of a glyph, which begin at `at`.
fn point(table: &[u8], number: u32, at: usize) -> Option<usize>
    requires { at < 2 ^ 33 }
    ensures value { result ≡ anchor_rules.point_of table.now number at }
    ensures near { IfSome result (λ there. there < 2 ^ 36) }
{
    if number < records(table, u32_at(table, at), at + 4, 4) {
        Some(at + 4 + 4 * number as usize)
    } else {
        None
    }
}

/// The point whose coordinates stand there.
pub(crate) fn read_anchor(table: &[u8], at: usize) -> Anchor
    requires { at < 2 ^ 39 }
    ensures { result ≡ anchor_rules.read_at table.now at }
{
    Anchor {
        x: i16_at(table, at),
        y: i16_at(table, at + 2),
    }
}

impl<'a> Anchors<'a> {
    /// Where the points of a glyph stand.
    fn points(&self, glyph: u32) -> Option<usize>
        ensures value { result ≡ anchor_rules.points_of self.now.table.now self.now.glyphs glyph }
        ensures near { IfSome result (λ at. at < 2 ^ 33) }
    {
        if is_empty(self.table) {
            return None;
        }
        let lookup = Lookup {
            table: self.table,
            start: u32_at(self.table, 4) as usize,
            is_long: false,
            glyphs: self.glyphs,
        };
        let at = lookup.place(glyph)?;
        Some(u32_at(self.table, 8) as usize + usize::from(word(self.table, at)))
    }

    /// Where a point of a glyph stands.
    fn place(&self, glyph: u32, number: u32) -> Option<usize>
        ensures value { result ≡ anchor_rules.place_of_point self.now.table.now self.now.glyphs
            glyph number }
        ensures near { IfSome result (λ there. there < 2 ^ 36) }
    {
        point(self.table, number, self.points(glyph)?)
    }

    /// A point of a glyph. One that the table doesn't have is the origin.
    pub fn anchor(&self, glyph: u32, number: u32) -> Anchor
        ensures { result ≡ anchor_rules.anchor_of self.now.table.now self.now.glyphs glyph number }
    {
        match self.place(glyph, number) {
            Some(at) => read_anchor(self.table, at),
            None => Anchor { x: 0, y: 0 },
        }
    }
}
