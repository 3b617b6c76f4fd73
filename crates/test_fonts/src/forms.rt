//! Tests of outlines and of the measures of a line, and of glyphs as text, through public calls
//! over the tests' font.

mod drawing;
mod writing;
