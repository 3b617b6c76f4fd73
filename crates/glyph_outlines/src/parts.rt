//! The points of a glyph with those of the glyphs that it is made of (OpenType, "glyf", composite
//! glyphs).
ghost use Rattle.std.specs.Prelude.{◌≡◌, ◌++◌, map, IfOk};
ghost use Rattle.glyph_outlines.specs.Frames;
ghost use Rattle.glyph_outlines.specs.Varied;

use crate::frame::{Frame, OutlinePoint};
use crate::varied::{VariedPoint, offsets, varied};
use glyf_points::composite::components;
use glyf_points::simple::{points, said};
use glyf_points::{Component, GlyphPoint, Placement};
use glyph_variations::glyph::GlyphVariations;
use glyph_variations::metric_points;
use glyph_variations::outline::MOST_POINTS as MOST_VARIED_POINTS;
use std::alloc::{AllocError, Global};

/// The most glyphs that one is drawn of; one that is placed by points counts twice.
pub const MOST_COMPONENTS: u32 = 256;

/// The most points, contours and components after which another glyph is added to one. A few bytes
/// can stand for 65,536 points.
pub const MOST_POINTS: u32 = 65536;

/// How many deltas, points and coordinates of peaks are read at most for an outline at coordinates:
/// 16 times as many as for a box. What would follow isn't drawn.
pub const MOST_VARIED_STEPS: u32 = 4_194_304;

/// So many of these count as much as a point: most of them are bytes.
const VARIED_STEPS_OF_A_POINT: u32 = 32;

/// A glyph that is still to be drawn, in its frame: a component of one whose points begin at place
/// `whole`, or a glyph by itself.
#[derive(Clone, Copy)]
pub struct Part {
    pub glyph: u16,
    frame: Frame,
    placement: Placement,
    whole: usize,
}

/// That the points from `first` on are to be moved, so that the point at place `own` comes to lie
/// on that at `whole`.
#[derive(Clone, Copy)]
struct Meeting {
    first: usize,
    own: usize,
    whole: usize,
}

/// What is still to be done for an outline.
#[derive(Clone, Copy)]
enum Task {
    Draw(Part),
    Meet(Meeting),
}

/// The points of an outline, what is still to be done for it, how many points, contours and
/// components were read, and how much may still be read of variations.
#[derive(Drop)]
pub struct Assembly {
    points: Vec<OutlinePoint>,
    tasks: Vec<Task>,
    read: u32,
    left: u32,
}

/// Appends the points of a glyph, in its frame.
#[tactic(auto, using(crate::proofs::PartLemmas::placed_step, crate::proofs::PartLemmas::placed_end))]
fn append_placed(
    points: &mut Vec<OutlinePoint>,
    frame: &Frame,
    own: &[GlyphPoint],
) -> Result<(), AllocError>
    ensures { IfOk result
        (λ _. points.new.items ≡ points.old.items ++ map (Frames.placed frame.now) own.now) }
{
    for point in own {
        points.push(frame.placed(*point))?;
    }
    Ok(())
}

/// Appends the points of a glyph at coordinates, in its frame.
#[tactic(auto, using(crate::proofs::PartLemmas::varied_step, crate::proofs::PartLemmas::varied_end))]
fn append_varied(
    points: &mut Vec<OutlinePoint>,
    frame: &Frame,
    own: &[VariedPoint],
) -> Result<(), AllocError>
    ensures { IfOk result
        (λ _. points.new.items ≡ points.old.items ++ map (Frames.placed_at frame.now) own.now) }
{
    for point in own {
        points.push(frame.placed_at(*point))?;
    }
    Ok(())
}

/// Moves points so that two of them meet, if both are there.
fn meet(points: &mut Vec<OutlinePoint>, meeting: Meeting) {
    if points.len() <= meeting.whole || points.len() <= meeting.own {
        return;
    }
    let (fixed, own) = (points[meeting.whole].point, points[meeting.own].point);
    let (dx, dy) = (fixed.x - own.x, fixed.y - own.y);
    for i in meeting.first..points.len() {
        points[i] = points[i].moved(dx, dy);
    }
}

impl Part {
    /// A glyph by itself, in this frame.
    fn alone(glyph: u16, frame: Frame) -> Part {
        Part {
            glyph,
            frame,
            placement: Placement::Moved(0, 0),
            whole: 0,
        }
    }

    /// A component of this one, whose points begin at place `whole`, in its own frame.
    fn component(&self, component: &Component, own: &Frame, whole: usize) -> Part {
        Part {
            glyph: component.glyph,
            frame: self.frame.within(own),
            placement: component.placement,
            whole,
        }
    }

    /// What is to be done once its points stand behind `first` others: nothing, unless it is placed
    /// by points.
    fn meeting(&self, first: usize) -> Option<Meeting> {
        match self.placement {
            Placement::Moved(_, _) => None,
            Placement::OnPoint(whole, own) => Some(Meeting {
                first,
                own: first.saturating_add(usize::from(own)),
                whole: self.whole.saturating_add(usize::from(whole)),
            }),
        }
    }
}

impl Assembly {
    /// Nothing but a glyph that is still to be drawn in a frame.
    pub fn new(alloc: Global, glyph: u16, frame: Frame) -> Result<Assembly, AllocError> {
        let mut tasks = Vec::new(alloc);
        tasks.push(Task::Draw(Part::alone(glyph, frame)))?;
        Ok(Assembly {
            points: Vec::new(alloc),
            tasks,
            read: 0,
            left: MOST_VARIED_STEPS,
        })
    }

    /// The points.
    pub fn points(&self) -> &[OutlinePoint]
        ensures { result.now ≡ self.now.points.items }
    {
        self.points.as_slice()
    }

    /// How many points, contours and components were read.
    pub fn read(&self) -> u32
        ensures { result ≡ self.now.read }
    {
        self.read
    }

    /// As how many of these the steps of variations count.
    pub fn varied(&self) -> u32
        ensures { result ≡ Varied.counted self.now.left }
    {
        MOST_VARIED_STEPS.saturating_sub(self.left) / VARIED_STEPS_OF_A_POINT
    }

    /// Counts what was read.
    fn count(&mut self, len: usize) {
        if len < 0x1_0000_0000 {
            self.read = self.read.saturating_add(len as u32);
        }
    }

    /// Does what is to be done before the next glyph is drawn, which is given; none if nothing is
    /// left.
    pub fn next(&mut self) -> Option<Part> {
        for _ in 0..MOST_COMPONENTS {
            match self.tasks.pop() {
                Some(Task::Draw(part)) => return Some(part),
                Some(Task::Meet(meeting)) => meet(&mut self.points, meeting),
                None => return None,
            }
        }
        None
    }

    /// Adds what is to be done once the points of a part stand.
    fn push_meeting(&mut self, part: &Part) -> Result<(), AllocError> {
        if let Some(meeting) = part.meeting(self.points.len()) {
            self.tasks.push(Task::Meet(meeting))?;
        }
        Ok(())
    }

    /// Draws a glyph with these bytes: adds its points, unless more than [`MOST_POINTS`] were read
    /// already, or its components to what is still to be done.
    pub fn draw(&mut self, alloc: Global, part: &Part, glyph: &[u8]) -> Result<(), AllocError> {
        self.push_meeting(part)?;
        let first = self.points.len();
        let components = components(alloc, glyph, MOST_COMPONENTS)?;
        for component in components.iter().rev() {
            let own = Frame::of(component);
            self.tasks
                .push(Task::Draw(part.component(component, &own, first)))?;
        }
        self.count(components.len());
        if MOST_POINTS < self.read {
            return Ok(());
        }
        self.read = self.read.saturating_add(said(glyph));
        if let Some(own) = points(alloc, glyph)? {
            append_placed(&mut self.points, &part.frame, own.as_slice())?;
        }
        Ok(())
    }

    /// Adds components to what is still to be done, each moved so far.
    fn push_varied(
        &mut self,
        part: &Part,
        components: &[Component],
        offsets: &[VariedPoint],
    ) -> Result<(), AllocError> {
        let first = self.points.len();
        for (component, offset) in components.iter().zip(offsets).rev() {
            let own = Frame::varied(component, *offset);
            self.tasks
                .push(Task::Draw(part.component(component, &own, first)))?;
        }
        Ok(())
    }

    /// Adds the components of a glyph to what is still to be done, moved by its variations.
    fn draw_components(
        &mut self,
        alloc: Global,
        part: &Part,
        glyph: &[u8],
        variations: &GlyphVariations<'_>,
    ) -> Result<(), AllocError> {
        let components = components(alloc, glyph, metric_points::MOST_COMPONENTS as u32)?;
        let offsets = offsets(alloc, components.as_slice())?;
        if offsets.is_empty() || MOST_VARIED_POINTS < offsets.len() {
            return Ok(());
        }
        self.count(components.len());
        let moved = varied(alloc, variations, offsets.as_slice(), self.left)?;
        self.left = moved.left;
        if 0 < moved.left {
            self.push_varied(part, components.as_slice(), moved.points.as_slice())?;
        }
        Ok(())
    }

    /// Adds the points of a glyph, moved by its variations.
    fn draw_points(
        &mut self,
        alloc: Global,
        part: &Part,
        own: &[GlyphPoint],
        variations: &GlyphVariations<'_>,
    ) -> Result<(), AllocError> {
        if own.is_empty() || MOST_VARIED_POINTS < own.len() {
            return Ok(());
        }
        let moved = varied(alloc, variations, own, self.left)?;
        self.left = moved.left;
        if 0 < moved.left {
            append_varied(&mut self.points, &part.frame, moved.points.as_slice())?;
        }
        Ok(())
    }

    /// Draws a glyph with these bytes, as [`Assembly::draw`] does, its points and components moved
    /// by its variations. Adds none if nothing of these may be read any more.
    pub fn draw_varied(
        &mut self,
        alloc: Global,
        part: &Part,
        glyph: &[u8],
        variations: &GlyphVariations<'_>,
    ) -> Result<(), AllocError> {
        self.push_meeting(part)?;
        self.draw_components(alloc, part, glyph, variations)?;
        if MOST_POINTS < self.read {
            return Ok(());
        }
        self.read = self.read.saturating_add(said(glyph));
        if let Some(own) = points(alloc, glyph)? {
            self.draw_points(alloc, part, own.as_slice(), variations)?;
        }
        Ok(())
    }
}
