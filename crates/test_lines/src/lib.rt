//! Tests of lines and carets through public calls, over a shaper whose results can be worked out
//! by hand, and of paragraphs over a font file.
#![tactic(auto)]

#[cfg(test)]
mod carets;
pub mod letters;
#[cfg(test)]
mod lines;
#[cfg(test)]
mod paragraphs;
#[cfg(test)]
mod tall;
