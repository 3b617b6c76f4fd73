//! Tests of positioning by `GPOS` over tables that were written by hand, through public calls.
//! `tables` reads the tables, `lines` the glyphs; `rows` has a case a row.

mod lines;
mod rows;
mod tables;
