//! Tests of the users of the layer, through their public calls: texts by script, ligatures, lines
//! and their pieces, spans, plain glyphs, words, a cache of words, carets.

mod breaking;
mod carets;
mod cuts;
mod every_form;
mod kept_words;
mod paragraph;
mod plain_glyphs;
mod rows;
mod scripts;
mod seen;
mod shaping;
mod words;
