//! What lines lead to.

/// What a line leads to.
pub enum Outcome {
    /// What it asks for is done; if shaping was refused, the refusal is written.
    Done,
    /// It can't be read, and nothing is done.
    Malformed,
    /// Memory for the glyph that it sets was refused; all but the metrics of glyphs is as it was.
    OutOfMemory,
    /// What it prints couldn't be written.
    WriteFailed,
}
