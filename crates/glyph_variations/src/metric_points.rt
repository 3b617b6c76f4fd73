//! The points on which the metrics of a glyph depend (OpenType, "gvar", "Phantom points"), by its
//! bytes in `glyf`.
ghost use Rattle.std.specs.Prelude.{◌≡◌, ◌≤◌, ◌<◌, ◌+◌, ◌^◌, true};
ghost use Rattle.std.specs.Option.{IfSome};
ghost use Rattle.glyph_variations.specs.MetricPoints;
ghost use Rattle.glyph_variations.specs.Times.{times};

use font_bytes::bytes::u16_at;
use glyf_points::composite::component_size;

/// How many components are read of a glyph at most.
pub const MOST_COMPONENTS: usize = 1_024;

/// Where the walk over components stands: the next one, how many were read, the last of them that
/// says that the whole has its metrics, and whether there are no more.
#[derive(Clone, Copy)]
pub(crate) struct ComponentWalk {
    pub at: usize,
    pub count: u32,
    pub metrics: Option<u16>,
    pub ended: bool,
}

impl ComponentWalk {
    /// No component is read yet.
    fn begin() -> ComponentWalk
        ensures { result ≡ MetricPoints.begun }
    {
        ComponentWalk {
            at: 10,
            count: 0,
            metrics: None,
            ended: false,
        }
    }

    /// There are no more.
    fn end(self) -> ComponentWalk
        ensures { result ≡ record self { ended = true } }
    {
        let mut next = self;
        next.ended = true;
        next
    }

    /// The component is read.
    fn with_component(self, glyph: &[u8]) -> ComponentWalk
        requires at { self.at < 2 ^ 32 }
        requires few { self.count < 2 ^ 20 }
        ensures value { result ≡ MetricPoints.with_component glyph.now self }
        ensures near { result.at ≤ self.at + 16 }
    {
        let flags = u16_at(glyph, self.at);
        let metrics = if flags & 0x200 != 0 {
            Some(u16_at(glyph, self.at + 2))
        } else {
            self.metrics
        };
        ComponentWalk {
            at: self.at + component_size(flags),
            count: self.count + 1,
            metrics,
            ended: flags & 0x20 == 0,
        }
    }

    /// The next component is read, if it is whole.
    fn next(self, glyph: &[u8]) -> ComponentWalk
        requires at { self.at < 2 ^ 32 }
        requires few { self.count < 2 ^ 20 }
        ensures value { result ≡ MetricPoints.component_step glyph.now self }
        ensures near { result.at ≤ self.at + 16 }
        ensures few { result.count ≤ self.count + 1 }
    {
        if self.ended {
            return self;
        }
        if glyph.len() < self.at + component_size(u16_at(glyph, self.at)) {
            return self.end();
        }
        self.with_component(glyph)
    }
}

/// How many components there is room for.
fn room(glyph: &[u8]) -> u32
    ensures value { result ≡ MetricPoints.room_of glyph.now }
    ensures few { result ≤ 1024 }
{
    (glyph.len() / 6).min(MOST_COMPONENTS) as u32
}

/// All components are read.
#[tactic(auto, using(crate::proofs::TimesLemmas::times_step))]
fn walked(glyph: &[u8]) -> ComponentWalk
    ensures value { result ≡ MetricPoints.walk_of glyph.now }
    ensures few { result.count ≤ 1024 }
{
    let mut walk = ComponentWalk::begin();
    for _i in 0..room(glyph) {
        walk = walk.next(glyph);
    }
    walk
}

/// How many points a glyph has before the four for its metrics: those of its outline, or one for
/// each of its components. None if the numbers of its contours are cut off.
pub fn point_count(glyph: &[u8]) -> Option<u32>
    ensures value { result ≡ MetricPoints.point_count glyph.now }
    ensures few { IfSome result (λ n. n ≤ 65536) }
{
    let contours = u16_at(glyph, 0);
    if contours == 0 {
        return Some(0);
    }
    if 0x8000 <= contours {
        return Some(walked(glyph).count);
    }
    if glyph.len() < 12 + 2 * usize::from(contours) {
        return None;
    }
    Some(u32::from(u16_at(glyph, 8 + 2 * usize::from(contours))) + 1)
}

/// The component whose metrics are those of the whole: the last one that says so. None if there is
/// none.
pub fn metrics_component(glyph: &[u8]) -> Option<u16>
    ensures { result ≡ MetricPoints.metrics_component glyph.now }
{
    if 0x8000 <= u16_at(glyph, 0) {
        walked(glyph).metrics
    } else {
        None
    }
}
