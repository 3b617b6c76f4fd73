//! What a charstring draws: strokes of a pen, in 65536ths of a unit, y upwards.

/// A place of the pen.
#[derive(Clone, Copy, PartialEq, Debug)]
pub struct Place {
    pub x: i64,
    pub y: i64,
}

/// A stroke.
#[derive(Clone, Copy, PartialEq, Debug)]
pub enum Stroke {
    /// The pen goes to a place without drawing, and a contour begins there.
    Move(Place),
    /// A line from a place to another.
    Straight(Place, Place),
    /// A curve of the third degree: from a place round two others to the last.
    Bent(Place, Place, Place, Place),
}

/// A letter with its accent: by which codes of Standard Encoding, and how far the accent is moved.
#[derive(Clone, Copy, PartialEq, Debug)]
pub struct Accent {
    pub dx: i64,
    pub dy: i64,
    pub base: i64,
    pub accent: i64,
}

/// What one step of the machine did.
#[derive(Clone, Copy, PartialEq, Debug)]
pub enum Event {
    /// It went on.
    Went,
    /// It drew.
    Drew(Stroke),
    /// The glyph ends, and is composed of two others.
    Composed(Accent),
    /// The glyph ends.
    Ended,
}
