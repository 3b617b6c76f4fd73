//! Tests of what stands on font files, through public calls: faces, kerning by `kern`, lookups of
//! `GPOS`, outlines, glyphs as text, texts shaped with a file that has GDEF, GSUB, GPOS and `kern`,
//! and a walk of substitution with many edits.
#![tactic(auto)]
#![allow(non_camel_case_types)]

#[cfg(test)]
mod comparing;
#[cfg(test)]
mod faces;
#[cfg(test)]
mod forms;
#[cfg(test)]
mod kerning;
pub mod laws;
#[cfg(test)]
mod many_edits;
#[cfg(test)]
mod positions;
#[cfg(test)]
mod rich;
#[cfg(test)]
mod texts;
#[cfg(test)]
mod tiny;
