//! Numbers in the bytes of the tables of a font file: [`bytes`].
//!
//! Any bytes are taken. What lies past the end of a table reads as 0, so no call is refused, and
//! one line says what each one means.
#![tactic(auto)]

pub mod bytes;
