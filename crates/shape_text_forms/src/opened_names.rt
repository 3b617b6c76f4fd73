//! The names of a font's glyphs, opened once: where each string of `post` begins is stored.
//!
//! A string of format 2 begins where the one before it ends, so a string is found by a step for
//! each one before it. Here these steps are taken once. Of the 258 names that a table leaves out
//! each is found by at most 257 steps.
ghost use Rattle.std.specs.Prelude.{◌≡◌, ◌<◌, ◌^◌, IfOk};
ghost use Rattle.std.specs.Option.{option_map};
ghost use Rattle.shape_font.specs.Face.{name_of_glyph};
ghost use Rattle.shape_font.specs.Names;
ghost use Rattle.shape_font.specs.declared.names.TheConstants.{STANDARD};
ghost use Rattle.shape_text_forms.specs.FontNames.{written_name};
ghost use Rattle.shape_text_forms.specs.OpenedNames.{AreStarts};

use crate::content::glyph_names;
use crate::font_names::{cut, text};
use shape_buffer::GlyphId;
use shape_font::FontFace;
use shape_font::names::{STANDARD_COUNT, name, name_index, string_at, strings_at};
use std::alloc::{AllocError, Global};
use std::marker::Model;

/// How many of the numbers of names are those of strings.
const STRING_COUNT: u32 = 65536 - STANDARD_COUNT;

/// Where the strings of a `post` begin. Refuses only if a growth of memory was refused.
#[tactic(auto, using(crate::proofs::StartLemmas::string_start_after, crate::proofs::StartLemmas::string_start_stays))]
fn string_starts(alloc: Global, post: &[u8]) -> Result<Vec<u32>, AllocError>
    ensures { IfOk result (λ starts. AreStarts post.now starts.items) }
{
    let mut starts = Vec::new(alloc);
    let mut start = strings_at(post);
    for _k in 0..STRING_COUNT {
        if post.len() <= start {
            return Ok(starts);
        }
        starts.push(start as u32)?;
        start += 1 + usize::from(post[start]);
    }
    Ok(starts)
}

/// The names in a font's table `post`, with where its strings begin: it returns what the
/// [`FontFace`] returns, and contracts see it as that face.
///
/// The places take four bytes for each string of format 2 that begins in the table: at most 65,278
/// of them.
#[derive(Drop)]
pub struct OpenedNames<'a> {
    face: FontFace<'a>,
    starts: Vec<u32>,
}

impl<'a> Model for OpenedNames<'a> {
    ghost use Rattle.shape_font.specs.declared.face.FontFace.{FontFace};
    ghost use Rattle.shape_text_forms.specs.OpenedNames.{AreStarts};

    ghost Value = { FontFace };

    ghost view = { λ o. o.face };

    ghost invariant = { λ o. AreStarts o.face.post.now o.starts.items };
}

impl<'a> OpenedNames<'a> {
    /// Opens the names of a face: stores where the strings of its `post` begin. Refuses only if a
    /// growth of memory was refused.
    pub fn new(alloc: Global, face: FontFace<'a>) -> Result<OpenedNames<'a>, AllocError>
        ensures { IfOk result (λ opened. opened ≡ face.entry) }
    {
        let starts = string_starts(alloc, face.post_table())?;
        Ok(OpenedNames { face, starts })
    }

    /// String `k` of those after the list of format 2.
    #[tactic(auto, using(crate::proofs::StartLemmas::string_at_past))]
    fn string(&self, k: u32) -> Option<&'a [u8]>
        requires { k < 65278 }
        ensures { option_map (λ s. s.now) result
            ≡ Names.string_of self.now.post.now k (Names.strings_at self.now.post.now) }
    {
        let place = k as usize;
        if place < self.starts.len() {
            string_at(self.face.post_table(), self.starts[place] as usize)
        } else {
            None
        }
    }

    /// The name with a number.
    fn numbered(&self, index: u32) -> Option<&'a [u8]>
        requires { index < 2 ^ 16 }
        ensures { option_map (λ s. s.now) result
            ≡ Names.name_of STANDARD.now self.now.post.now index }
    {
        if index < STANDARD_COUNT {
            name(self.face.post_table(), index)
        } else {
            self.string(index - STANDARD_COUNT)
        }
    }

    /// The glyph's name by `post`; none if the table has none for it, or an empty one.
    fn post_name(&self, glyph: GlyphId) -> Option<&'a [u8]>
        ensures { option_map (λ s. s.now) result
            ≡ Names.glyph_name STANDARD.now self.now.post.now glyph.0 }
    {
        match name_index(self.face.post_table(), glyph.0) {
            Some(index) => self.numbered(index),
            None => None,
        }
    }

    /// The glyph's name by `post`, or else by the charset of `CFF `; none if neither has one for
    /// it, or an empty one.
    pub fn glyph_name(&self, glyph: GlyphId) -> Option<&'a [u8]>
        ensures { option_map (λ s. s.now) result ≡ name_of_glyph self.now glyph.0 }
    {
        match self.post_name(glyph) {
            Some(name) => Some(name),
            None => self.face.charset_name(glyph.0),
        }
    }

    /// The first bytes of the glyph's name, if they are text.
    fn written(&self, glyph: GlyphId) -> Option<&'a str>
        ensures { option_map (λ s. s.now) result ≡ written_name self.now glyph.0 }
    {
        match self.glyph_name(glyph) {
            Some(name) => text(cut(name)),
            None => None,
        }
    }
}

/// The names that the face has, found without a step for each string of the table.
impl<'a> glyph_names for OpenedNames<'a> {
    ghost use Rattle.shape_text_forms.specs.FontNames.{written_name};

    ghost name = { written_name };

    fn glyph_name(&self, glyph: GlyphId) -> Option<&str> {
        self.written(glyph)
    }
}
