//! Lines and curves of contours, from points that the outline goes through and those that its
//! curves go round.
ghost use Rattle.std.specs.Prelude.{◌≡◌, ◌<◌, ◌++◌, [], None, length, IfOk};
ghost use Rattle.glyph_outlines.specs.Contours;

use crate::frame::{OutlinePoint, Point, middle};
use std::alloc::{AllocError, Global};

/// A step of a pen along an outline, in units of the font, y upwards.
#[derive(Clone, Copy, PartialEq, Debug)]
pub enum Segment {
    /// To the start of a contour.
    Move(Point),
    /// Along a line to a point.
    Line(Point),
    /// Along a curve (of the second degree) round the first point to the second.
    Curve(Point, Point),
    /// Along a curve (of the third degree) round the first two points to the third.
    Cubic(Point, Point, Point),
    /// Along a line to the start of the contour, which ends there.
    Close,
}

/// Where a contour begins: at its first point, its last one, or between them, whichever the outline
/// goes through.
fn begin(first: Point, last: Point) -> Point
    ensures { result ≡ Contours.begin first last }
{
    if first.on {
        first
    } else if last.on {
        last
    } else {
        middle(first, last)
    }
}

/// The point round which the curve goes to the next one, if there is a curve.
fn control_after(point: Point) -> Option<Point>
    ensures { result ≡ Contours.control_after point }
{
    if point.on { None } else { Some(point) }
}

/// Appends what leads to a point: a curve round the one before it, a line, or nothing yet.
fn append_lead(
    segments: &mut Vec<Segment>,
    control: Option<Point>,
    point: Point,
) -> Result<(), AllocError>
    ensures { IfOk result
        (λ _. segments.new.items ≡ segments.old.items ++ Contours.lead control point) }
{
    match control {
        Some(round) => {
            let end = if point.on {
                point
            } else {
                middle(round, point)
            };
            segments.push(Segment::Curve(round, end))?;
            Ok(())
        }
        None => {
            if point.on {
                segments.push(Segment::Line(point))?;
            }
            Ok(())
        }
    }
}

/// Appends what leads back to the start of a contour: a curve, or nothing, since a line closes it.
fn append_closing(
    segments: &mut Vec<Segment>,
    control: Option<Point>,
    start: Point,
) -> Result<(), AllocError>
    ensures { IfOk result
        (λ _. segments.new.items ≡ segments.old.items ++ Contours.closing start control) }
{
    if let Some(round) = control {
        segments.push(Segment::Curve(round, start))?;
    }
    Ok(())
}

/// Appends what leads through points and back to the start.
#[tactic(auto, using(crate::proofs::ContourLemmas::led_step, crate::proofs::ContourLemmas::led_end))]
fn append_points(
    segments: &mut Vec<Segment>,
    start: Point,
    points: &[Point],
) -> Result<(), AllocError>
    ensures { IfOk result
        (λ _. segments.new.items ≡ segments.old.items ++ Contours.led start None points.now) }
{
    let mut control: Option<Point> = None;
    for point in points {
        append_lead(segments, control, *point)?;
        control = control_after(*point);
    }
    append_closing(segments, control, start)
}

/// The last of a point and those behind it.
#[tactic(auto, using(crate::proofs::ContourLemmas::last_step, crate::proofs::ContourLemmas::last_end))]
fn last(first: Point, points: &[Point]) -> Point
    ensures { result ≡ Contours.last_of first points.now }
{
    let mut last = first;
    for point in points {
        last = *point;
    }
    last
}

/// The points to which something leads, of a contour with this first one: not the first, if the
/// contour begins there.
fn targets(first: Point, points: &[Point]) -> &[Point]
    requires { 0 < length points.now }
    ensures { result.now ≡ Contours.targets first points.now }
{
    if first.on {
        &points[1..points.len()]
    } else {
        points
    }
}

/// Appends the contour of points of which this one is the first.
#[tactic(auto, using(crate::proofs::ContourLemmas::contour_joined))]
fn append_begun(
    segments: &mut Vec<Segment>,
    first: Point,
    points: &[Point],
) -> Result<(), AllocError>
    requires { 0 < length points.now }
    ensures { IfOk result
        (λ _. segments.new.items ≡ segments.old.items ++ Contours.contour_from first points.now) }
{
    let start = begin(first, last(first, points));
    segments.push(Segment::Move(start))?;
    append_points(segments, start, targets(first, points))?;
    segments.push(Segment::Close)?;
    Ok(())
}

/// Appends a contour: lines between points, curves round those that the outline doesn't go through.
#[tactic(auto, using(crate::proofs::ContourLemmas::contour_begun, crate::proofs::ContourLemmas::no_contour))]
fn append_contour(segments: &mut Vec<Segment>, points: &[Point]) -> Result<(), AllocError>
    ensures { IfOk result
        (λ _. segments.new.items ≡ segments.old.items ++ Contours.contour points.now) }
{
    if points.is_empty() {
        return Ok(());
    }
    append_begun(segments, points[0], points)?;
    Ok(())
}

/// Appends the contours of an outline.
#[tactic(auto, using(crate::proofs::ContourLemmas::outline_goes_on, crate::proofs::ContourLemmas::outline_closes, crate::proofs::ContourLemmas::outline_over))]
pub(crate) fn append_contours(
    alloc: Global,
    segments: &mut Vec<Segment>,
    points: &[OutlinePoint],
) -> Result<(), AllocError>
    ensures { IfOk result
        (λ _. segments.new.items ≡ segments.old.items ++ Contours.outline [] points.now) }
{
    let mut contour = Vec::new(alloc);
    for point in points {
        contour.push(point.point)?;
        if point.ends {
            append_contour(segments, contour.as_slice())?;
            contour.clear();
        }
    }
    Ok(())
}
