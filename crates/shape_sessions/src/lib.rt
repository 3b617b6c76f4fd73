//! What the program `shapeline` makes of its lines, before it shapes anything.
//!
//! A line is words ([`parse`]); the first one says what it is about ([`command`]), and the others
//! set something of a session ([`session`], [`settings`], [`mode`]) or write a text. [`outcome`]
//! says what a line leads to, [`printing`] writes the lines printed for a text, and
//! [`unicode_tables`] has the Unicode functions of the program.
//!
//! It is a library apart from the program, since it needs no step of shaping: so its proofs and the
//! wrong bodies that they refuse are checked without the pipeline.
#![tactic(auto)]
#![allow(non_camel_case_types)]

pub mod command;
pub mod mode;
pub mod outcome;
pub mod parse;
pub mod printing;
pub mod session;
pub mod settings;
pub mod unicode_tables;
pub mod worked;
