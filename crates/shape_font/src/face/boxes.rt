//! Boxes of glyphs of `glyf` at coordinates.
//!
//! A glyph's box there is that of its points, as `gvar` moves them. It is computed without an
//! allocator, in arrays of a fixed size, so that a glyph of very many points or components has
//! none.
ghost use Rattle.std.specs.Prelude.{◌≡◌, ◌≤◌, ◌<◌, ◌+◌, false, length, map};
ghost use Rattle.std.specs.Option.{option_map};
ghost use Rattle.shape_font.specs.BoxesAt;

use super::FontFace;
use crate::bytes::u16_at;
use crate::moved::{coordinate, left, left_at, offset};
use crate::placed::{Bounds, Frame, Part, Place, extents, part_at, shifted, through, widened};
use arrayvec::ArrayVec;
use glyf_points::bounded::{MOST_COMPONENTS, MOST_POINTS, few_components, few_points};
use glyf_points::{Component, GlyphPoint, Placement};
use glyph_variations::glyph::GlyphVariations;
use glyph_variations::inferred::Listed;
use glyph_variations::metric_points::point_count;
use glyph_variations::outline::OutlineAxis;
use glyph_variations::sums::Moving;
use shape_buffer::hb_glyph_extents_t;

/// How many deltas, points and coordinates of peaks are read for a box at most. A text may ask for
/// as many boxes as it has glyphs, so that none may take long.
pub const MOST_BOX_STEPS: u32 = 262_144;

/// How many glyphs one is made of at most that has a box.
const MOST_PARTS: usize = 128;

/// In how many others one of them is at most.
const MOST_DEPTH: u32 = 8;

/// Where points stand, and how much may still be read.
#[derive(Drop)]
struct MovedPoints {
    places: ArrayVec<Place, MOST_POINTS>,
    left: u32,
}

/// What is gathered for a box: the parts of the glyph, how much may still be read, how far all is
/// moved, and the box so far.
#[derive(Drop)]
struct Gathering {
    parts: ArrayVec<Part, MOST_PARTS>,
    left: u32,
    shift: Place,
    bounds: Option<Bounds>,
}

/// The box of points so far, none without points, and how much may still be read.
#[derive(Clone, Copy)]
pub(crate) struct Walked {
    pub bounds: Option<Bounds>,
    pub left: u32,
}

/// How many parts are read at most.
#[tactic(auto, unfolding(crate::specs::BoxesAt::most_parts))]
fn most_parts() -> usize
    ensures { result ≡ BoxesAt.most_parts }
{
    MOST_PARTS
}

/// Where so many points stand.
#[tactic(auto, using(glyph_variations::proofs::TimesLemmas::steps_next), unfolding(crate::specs::BoxesAt::places_of))]
fn places(across: &[Moving], upwards: &[Moving], count: usize) -> ArrayVec<Place, MOST_POINTS>
    requires { count ≤ 2048 }
    ensures { result.items ≡ BoxesAt.places_of across.now upwards.now count }
{
    let mut places = ArrayVec::new();
    for i in 0..count {
        places.push(Place {
            x: coordinate(across, i),
            y: coordinate(upwards, i),
        });
    }
    places
}

/// The place with this number.
fn place_at(places: &[Place], i: usize) -> Place
    ensures { result ≡ BoxesAt.place_at places.now i }
{
    if i < places.len() {
        places[i]
    } else {
        Place { x: 0.0, y: 0.0 }
    }
}

/// Whether a component isn't placed by points.
fn is_moved(component: &Component) -> bool
    ensures { result ≡ BoxesAt.is_moved component.now }
{
    match component.placement {
        Placement::Moved(_, _) => true,
        Placement::OnPoint(_, _) => false,
    }
}

/// Whether none of the components is placed by points.
#[tactic(auto, using(crate::proofs::BoxLemmas::moved_next, crate::proofs::BoxLemmas::moved_not, crate::proofs::BoxLemmas::moved_end))]
fn are_moved(components: &[Component]) -> bool
    ensures { result ≡ BoxesAt.all_moved components.now }
{
    for component in components {
        if !is_moved(component) {
            return false;
        }
    }
    true
}

/// How far components are moved in the default instance, as points.
#[tactic(auto, using(crate::proofs::BoxLemmas::offsets_next, crate::proofs::BoxLemmas::offsets_end))]
fn offsets(components: &[Component]) -> ArrayVec<GlyphPoint, MOST_COMPONENTS>
    requires { length components.now ≤ 64 }
    ensures { result.items ≡ map BoxesAt.offset_of components.now }
{
    let mut offsets = ArrayVec::new();
    for component in components {
        offsets.push(offset(component));
    }
    offsets
}

impl Gathering {
    /// A glyph by itself, for which so much may be read.
    fn of(glyph: u32, shift: Place, left: u32) -> Gathering
        ensures { BoxesAt.gathered result ≡ BoxesAt.begun left glyph shift }
    {
        let mut parts = ArrayVec::new();
        parts.push(Part {
            glyph,
            depth: 0,
            frame: Frame::none(),
        });
        Gathering {
            parts,
            left,
            shift,
            bounds: None,
        }
    }

    /// The box so far, with places of a part.
    #[tactic(auto, using(glyph_variations::proofs::TimesLemmas::steps_next), unfolding(crate::specs::BoxesAt::bounds_with))]
    fn bounds_with(&self, part: usize, places: &[Place]) -> Option<Bounds>
        ensures { result ≡ BoxesAt.bounds_with self.now.parts.items part self.now.shift places.now self.now.bounds }
    {
        let mut bounds = self.bounds;
        for i in 0..places.len() {
            let place = through(self.parts.as_slice(), part, place_at(places, i));
            bounds = widened(bounds, shifted(self.shift, place));
        }
        bounds
    }

    /// The points of a part are added. None if too much was read.
    fn add_points(&mut self, part: usize, moved: &MovedPoints) -> Option<()>
        ensures { option_map (λ _. BoxesAt.gathered self.new) result
            ≡ BoxesAt.with_points part (BoxesAt.moved_points moved.now) (BoxesAt.gathered self.old) }
    {
        if moved.left == 0 {
            return None;
        }
        self.bounds = self.bounds_with(part, moved.places.as_slice());
        self.left = moved.left;
        Some(())
    }

    /// Whether a part isn't read, which has these bytes and these components.
    fn is_too_large(&self, part: usize, outline: &[u8], count: usize) -> bool
        requires { count ≤ 64 }
        ensures value { result ≡ BoxesAt.is_too_large (BoxesAt.gathered self.now) part outline.now count }
        ensures depth { result ≡ false → BoxesAt.depth_of (BoxesAt.gathered self.now) part < 8 }
        ensures few { result ≡ false → length self.now.parts.items + count ≤ 128 }
    {
        64 < point_count(outline).unwrap_or(0)
            || MOST_DEPTH <= part_at(self.parts.as_slice(), part).depth
            || MOST_PARTS < self.parts.len() + count
    }

    /// The components of a part are to be read, too.
    #[tactic(auto, using(glyph_variations::proofs::TimesLemmas::steps_next), unfolding(crate::specs::BoxesAt::with_parts))]
    fn push_parts(&mut self, part: usize, depth: u32, components: &[Component], places: &[Place])
        requires few { length self.old.parts.items + length components.now ≤ 128 }
        requires depth { depth < 8 }
        ensures { BoxesAt.gathered self.new ≡ BoxesAt.parts_pushed part depth components.now places.now (BoxesAt.gathered self.old) }
    {
        for i in 0..components.len() {
            self.parts.push(Part {
                glyph: u32::from(components[i].glyph),
                depth: depth + 1,
                frame: Frame::of(&components[i], place_at(places, i), part),
            });
        }
    }

    /// The components of a part, which are moved so far. None if too much was read.
    fn add_components(
        &mut self,
        part: usize,
        components: &[Component],
        moved: &MovedPoints,
    ) -> Option<()>
        requires few { length self.old.parts.items + length components.now ≤ 128 }
        requires depth { BoxesAt.depth_of (BoxesAt.gathered self.old) part < 8 }
        ensures { option_map (λ _. BoxesAt.gathered self.new) result
            ≡ BoxesAt.with_components part components.now (BoxesAt.moved_points moved.now) (BoxesAt.gathered self.old) }
    {
        if moved.left == 0 {
            return None;
        }
        let depth = part_at(self.parts.as_slice(), part).depth;
        self.push_parts(part, depth, components, moved.places.as_slice());
        self.left = moved.left;
        Some(())
    }
}

impl<'a> FontFace<'a> {
    /// Where points of a glyph stand, or the offsets of its components.
    #[tactic(auto, unfolding(crate::specs::BoxesAt::moved_of))]
    fn moved(&self, glyph: u32, points: &[GlyphPoint], left: u32) -> MovedPoints
        requires { length points.now ≤ 2048 }
        ensures { BoxesAt.moved_points result ≡ BoxesAt.moved_of self.now glyph points.now left }
    {
        let count = points.len();
        let untouched = Listed {
            delta: 0.0,
            touched: false,
        };
        let still = Moving {
            position: 0.0,
            pending: 0.0,
        };
        let (mut listed_room, mut across_room) = ([untouched; MOST_POINTS], [still; MOST_POINTS]);
        let mut upwards_room = [still; MOST_POINTS];
        let listed = &mut listed_room[..count];
        let across = &mut across_room[..count];
        let upwards = &mut upwards_room[..count];
        let variations = GlyphVariations::of(self.gvar, self.glyph_count, glyph, self.coordinates);
        let level = OutlineAxis {
            points,
            vertical: false,
        };
        let left = level.move_points(&variations, left, listed, across);
        let upright = OutlineAxis {
            points,
            vertical: true,
        };
        let left = upright.move_points(&variations, left, listed, upwards);
        MovedPoints {
            places: places(across, upwards, count),
            left: left.saturating_sub(count as u32),
        }
    }

    /// A part with this outline is read. None if it is too large.
    fn add_outline(&self, part: usize, outline: &[u8], gathering: &mut Gathering) -> Option<()>
        ensures { option_map (λ _. BoxesAt.gathered gathering.new) result
            ≡ BoxesAt.outlined self.now part outline.now (BoxesAt.gathered gathering.old) }
    {
        let points = few_points(outline)?;
        let glyph = part_at(gathering.parts.as_slice(), part).glyph;
        let moved = self.moved(glyph, points.as_slice(), gathering.left);
        gathering.add_points(part, &moved)
    }

    /// A part that is made of others is read. None if it is too large, or one of them is placed by
    /// points.
    fn add_composite(&self, part: usize, outline: &[u8], gathering: &mut Gathering) -> Option<()>
        ensures { option_map (λ _. BoxesAt.gathered gathering.new) result
            ≡ BoxesAt.composed self.now part outline.now (BoxesAt.gathered gathering.old) }
    {
        let components = few_components(outline);
        if gathering.is_too_large(part, outline, components.len()) {
            return None;
        }
        if !are_moved(components.as_slice()) {
            return None;
        }
        let offsets = offsets(components.as_slice());
        let glyph = part_at(gathering.parts.as_slice(), part).glyph;
        let moved = self.moved(glyph, offsets.as_slice(), gathering.left);
        gathering.add_components(part, components.as_slice(), &moved)
    }

    /// The bytes of an outline; none if the font doesn't hold it.
    fn bytes_of(&self, glyph: u32) -> &'a [u8]
        ensures { result.now ≡ BoxesAt.bytes_of_part self.now glyph }
    {
        match self.outline(glyph) {
            Some(outline) => outline,
            None => &[],
        }
    }

    /// A part is read.
    fn add_part(&self, part: usize, gathering: &mut Gathering) -> Option<()>
        ensures { option_map (λ _. BoxesAt.gathered gathering.new) result
            ≡ BoxesAt.part_step self.now part (BoxesAt.gathered gathering.old) }
    {
        let glyph = part_at(gathering.parts.as_slice(), part).glyph;
        let outline = self.bytes_of(glyph);
        if 0x8000 <= u16_at(outline, 0) {
            self.add_composite(part, outline, gathering)
        } else {
            self.add_outline(part, outline, gathering)
        }
    }

    /// Where the left point for metrics of a glyph with these bytes stands at the coordinates.
    fn left_by(&self, glyph: u32, outline: &[u8]) -> Option<f32>
        ensures { result ≡ BoxesAt.left_by self.now glyph outline.now }
    {
        let variations = GlyphVariations::of(self.gvar, self.glyph_count, glyph, self.coordinates);
        let left = left(self.hmtx, self.h_count, glyph, outline);
        left_at(&variations, outline, left)
    }

    /// The same of a glyph, if its outline is there.
    #[tactic(auto, unfolding(crate::specs::BoxesAt::left_at))]
    fn left_at(&self, glyph: u32) -> Option<f32>
        ensures { result ≡ BoxesAt.left_at self.now glyph }
    {
        let outline = self.outline(glyph)?;
        self.left_by(glyph, outline)
    }

    /// How far all points of a glyph are moved.
    fn shift(&self, glyph: u32) -> Place
        ensures { result ≡ BoxesAt.shift_of self.now glyph }
    {
        let left = self.left_at(self.metrics_glyph(glyph));
        Place {
            x: 0.0 - left.unwrap_or(0.0),
            y: 0.0,
        }
    }

    /// The box of all parts. None if one of them is too large.
    #[tactic(auto, using(crate::proofs::BoxLemmas::parts_next, crate::proofs::BoxLemmas::parts_done, crate::proofs::BoxLemmas::parts_refused, crate::proofs::BoxLemmas::parts_end))]
    fn gathered(&self, most: usize, gathering: &mut Gathering) -> Option<()>
        ensures { option_map (λ _. BoxesAt.gathered gathering.new) result
            ≡ BoxesAt.parts_from self.now most 0 (BoxesAt.gathered gathering.old) }
    {
        for part in 0..most {
            if gathering.parts.len() <= part {
                return Some(());
            }
            self.add_part(part, gathering)?;
        }
        Some(())
    }

    /// The least box that holds the points of a glyph at the coordinates, if no more than so much
    /// is read for it. Refuses if `loca` has no place for it, or the glyph is too large or made of
    /// one that is placed by points.
    #[tactic(auto, unfolding(crate::specs::BoxesAt::bounds_there))]
    pub(super) fn bounds_there(&self, glyph: u32, left: u32) -> Option<Walked>
        ensures { result ≡ BoxesAt.bounds_there self.now left glyph }
    {
        if !self.has_place(glyph) {
            return None;
        }
        let mut gathering = Gathering::of(glyph, self.shift(glyph), left);
        self.gathered(most_parts(), &mut gathering)?;
        Some(Walked {
            bounds: gathering.bounds,
            left: gathering.left,
        })
    }

    /// The box of a glyph at the coordinates, in whole units.
    #[tactic(auto, unfolding(crate::specs::BoxesAt::box_at))]
    pub(super) fn box_at(&self, glyph: u32) -> Option<hb_glyph_extents_t>
        ensures { result ≡ BoxesAt.box_at self.now glyph }
    {
        let walked = self.bounds_there(glyph, MOST_BOX_STEPS)?;
        Some(extents(walked.bounds))
    }
}
