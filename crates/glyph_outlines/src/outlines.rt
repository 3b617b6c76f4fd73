//! The outline of a glyph, with those that it is made of (OpenType, "glyf", composite glyphs).
ghost use Rattle.std.specs.Prelude.{◌≡◌, ◌≤◌, [], length, nat_lt, is_some, IfOk};
ghost use Rattle.std.specs.Option.{IfSome};
ghost use Rattle.shape_font.specs.Bytes.{u16_of};
ghost use Rattle.shape_font.specs.Directory.{bytes_of};
ghost use Rattle.shape_font.specs.Metrics.{long_metrics};
ghost use Rattle.glyph_outlines.specs.Lefts;
ghost use Rattle.glyph_outlines.specs.Places.{outline_bytes, has_outlines};

use crate::cubic::append_glyph;
use crate::frame::Frame;
use crate::parts::{Assembly, MOST_COMPONENTS, Part};
use crate::segments::{Segment, append_contours};
use cff_tables::CffFont;
use glyph_variations::glyph::GlyphVariations;
use shape_font::bytes::u16_at;
use shape_font::cff::cff_font;
use shape_font::directory::Directory;
use shape_font::metrics::{metrics_in, place};
use std::alloc::{AllocError, Global};

mod left;

const HEAD: u32 = 0x6865_6164;

const MAXP: u32 = 0x6d61_7870;

const LOCA: u32 = 0x6c6f_6361;

const GLYF: u32 = 0x676c_7966;

const GVAR: u32 = 0x6776_6172;

const HHEA: u32 = 0x6868_6561;

const HMTX: u32 = 0x686d_7478;

/// The outlines of a font, at the default instance of a variable one, or at the coordinates given
/// to [`Outlines::at`]. It borrows the bytes of the file.
#[derive(Clone, Copy)]
pub struct Outlines<'a> {
    glyf: &'a [u8],
    loca: &'a [u8],
    long: bool,
    cff: Option<CffFont<'a>>,
    gvar: &'a [u8],
    hmtx: &'a [u8],
    h_count: u16,
    glyph_count: u16,
    coordinates: &'a [i32],
}

/// The outline of a glyph.
#[derive(Drop)]
pub struct Outline {
    segments: Vec<Segment>,
    points: u32,
}

impl Outline {
    /// Its segments, contour by contour.
    pub fn segments(&self) -> &[Segment]
        ensures { result.now ≡ self.now.segments.items }
    {
        self.segments.as_slice()
    }

    /// How many points, contours and components of the font were read for it, with a 32nd of the
    /// steps of its variations; or eighths of the steps of its charstring.
    pub fn points(&self) -> u32
        ensures { result ≡ self.now.points }
    {
        self.points
    }
}

impl<'a> Outlines<'a> {
    /// The outlines of the font with this number in a collection, or number 0, the one of a file of
    /// one font. None if it has neither a table `glyf` nor a font in `CFF2` or `CFF `. A font that
    /// has both is drawn by `glyf`.
    #[tactic(auto, unfolding(shape_font::specs::Directory::has_table))]
    pub fn from_slice(bytes: &'a [u8], index: u32) -> Option<Outlines<'a>>
        ensures found { is_some result ≡ has_outlines bytes.now index }
        ensures glyf { IfSome result (λ o. o.glyf.now ≡ bytes_of bytes.now index GLYF) }
        ensures loca { IfSome result (λ o. o.loca.now ≡ bytes_of bytes.now index LOCA) }
        ensures long { IfSome result (λ o. o.long
            ≡ nat_lt 0 (u16_of (bytes_of bytes.now index HEAD) 50)) }
        ensures gvar { IfSome result (λ o. o.gvar.now ≡ bytes_of bytes.now index GVAR) }
        ensures hmtx { IfSome result (λ o. o.hmtx.now ≡ bytes_of bytes.now index HMTX) }
        ensures h_count { IfSome result (λ o. o.h_count ≡ long_metrics
            (bytes_of bytes.now index HMTX) (u16_of (bytes_of bytes.now index HHEA) 34)) }
        ensures glyph_count { IfSome result (λ o. o.glyph_count
            ≡ u16_of (bytes_of bytes.now index MAXP) 4) }
        ensures coordinates { IfSome result (λ o. o.coordinates.now ≡ []) }
    {
        let font = Directory::of(bytes, index);
        let glyph_count = u16_at(font.table_or_empty(MAXP), 4);
        let cff = if font.has(GLYF) {
            None
        } else {
            cff_font(&font, glyph_count)
        };
        if !font.has(GLYF) && cff.is_none() {
            return None;
        }
        let (hhea, hmtx) = (font.table_or_empty(HHEA), font.table_or_empty(HMTX));
        Some(Outlines {
            glyf: font.table_or_empty(GLYF),
            loca: font.table_or_empty(LOCA),
            long: u16_at(font.table_or_empty(HEAD), 50) != 0,
            cff,
            gvar: font.table_or_empty(GVAR),
            hmtx,
            h_count: metrics_in(hmtx, u16_at(hhea, 34)),
            glyph_count,
            coordinates: &[],
        })
    }

    /// The same outlines at these coordinates, normalized and in units of 1/16384, as `shape_font`
    /// `instance` makes them; none are the default instance. Those of `glyf` are varied by `gvar`,
    /// and moved so that the left point for metrics comes to stand at 0, as HarfBuzz draws them.
    /// Those of `CFF2` stay as in the default instance.
    pub fn at(self, coordinates: &'a [i32]) -> Outlines<'a>
        ensures { result ≡ record self.entry { coordinates = coordinates.entry } }
    {
        Outlines {
            coordinates,
            ..self
        }
    }

    /// The bytes of a glyph's outline, none if it has none.
    fn bytes(&self, glyph: u16) -> &'a [u8]
        ensures { result.now ≡ outline_bytes self.now glyph }
    {
        let start = place(self.loca, self.long, usize::from(glyph));
        let end = place(self.loca, self.long, usize::from(glyph) + 1);
        if start < end && end <= self.glyf.len() {
            &self.glyf[start..end]
        } else {
            &[]
        }
    }

    /// The outline of a glyph, of which at most so many segments count; empty if the glyph has
    /// none. Refuses only if a growth was refused.
    pub fn outline(&self, alloc: Global, glyph: u16, most: usize) -> Result<Outline, AllocError>
        ensures bounded { IfOk result (λ o. length o.segments.items ≤ most) }
    {
        let mut segments = Vec::new(alloc);
        let points = match self.cff {
            Some(font) => append_glyph(&mut segments, &font, glyph)?,
            None => self.append(alloc, &mut segments, glyph)?,
        };
        segments.truncate(most);
        Ok(Outline { segments, points })
    }

    /// Draws a part, at the coordinates if there are any.
    fn draw(&self, alloc: Global, assembly: &mut Assembly, part: &Part) -> Result<(), AllocError> {
        let glyph = self.bytes(part.glyph);
        if self.coordinates.is_empty() {
            return assembly.draw(alloc, part, glyph);
        }
        let number = u32::from(part.glyph);
        let variations = GlyphVariations::of(self.gvar, self.glyph_count, number, self.coordinates);
        assembly.draw_varied(alloc, part, glyph, &variations)
    }

    /// Appends the outline of a glyph of `glyf`. Gives how many points, contours and components
    /// were read, and what the steps of its variations count as.
    fn append(
        &self,
        alloc: Global,
        segments: &mut Vec<Segment>,
        glyph: u16,
    ) -> Result<u32, AllocError> {
        let mut assembly = Assembly::new(alloc, glyph, self.frame(glyph))?;
        for _ in 0..MOST_COMPONENTS {
            let Some(part) = assembly.next() else {
                break;
            };
            self.draw(alloc, &mut assembly, &part)?;
        }
        append_contours(alloc, segments, assembly.points())?;
        Ok(assembly.read().saturating_add(assembly.varied()))
    }

    /// The frame that a whole glyph is drawn in.
    fn frame(&self, glyph: u16) -> Frame
        ensures { result ≡ Lefts.frame_at self.now glyph }
    {
        if self.coordinates.is_empty() {
            Frame::still()
        } else {
            Frame::along(0.0 - f64::from(self.left_at(self.metrics_glyph(glyph))))
        }
    }
}
