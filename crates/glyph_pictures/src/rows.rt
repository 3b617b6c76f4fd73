//! The table of a line's glyphs, and its text in bands.
use crate::bands::{Band, Character, characters_of};
use crate::drawn::MOST_BYTES;
use crate::html::{push_char, push_html};
use crate::sheet::Sheet;
use shape_buffer::{GlyphId, GlyphPosition, hb_glyph_info_t};
use shape_text_forms::glyph_names;
use std::alloc::{AllocError, Global};

/// How many characters of a cluster are listed.
const LISTED: usize = 16;

/// What stands above the columns of a table.
const COLUMNS: &str =
    "<table><thead><tr><th>glyph</th><th>number</th><th>cluster</th><th>characters</th>\
<th>advance</th><th>offset</th><th>flags</th></tr></thead><tbody>\n";

/// Appends the text of some characters.
fn push_text(out: &mut String, characters: &[Character]) -> Result<(), AllocError> {
    for character in characters {
        push_char(out, character.c)?;
    }
    Ok(())
}

/// Appends some characters, and then their numbers.
fn push_characters(out: &mut String, characters: &[Character]) -> Result<(), AllocError> {
    let listed = characters.get(..LISTED).unwrap_or(characters);
    out.push_str("<bdi>")?;
    push_text(out, listed)?;
    out.push_str("</bdi>")?;
    for character in listed {
        let number = u32::from(character.c);
        write!(out, " U+{number:04X}")?;
    }
    if listed.len() < characters.len() {
        out.push_str(" …")?;
    }
    Ok(())
}

/// Appends a glyph's name, or `gid` and its number if it has none.
fn push_name<N: glyph_names>(out: &mut String, names: &N, glyph: u32) -> Result<(), AllocError> {
    match names.glyph_name(GlyphId(glyph)) {
        Some(name) => push_html(out, name),
        None => write!(out, "gid{glyph}"),
    }
}

/// Appends how far the pen moves on, and where a glyph is moved to.
fn push_position(out: &mut String, position: &GlyphPosition) -> Result<(), AllocError> {
    let (x, y) = (position.x_advance, position.y_advance);
    if y == 0 {
        write!(out, "<td>{x}</td>")?;
    } else {
        write!(out, "<td>{x},{y}</td>")?;
    }
    let (x, y) = (position.x_offset, position.y_offset);
    write!(out, "<td>{x},{y}</td>")
}

/// Appends the defined flags of a glyph in words.
fn push_flags(out: &mut String, info: &hb_glyph_info_t) -> Result<(), AllocError> {
    let words = [
        (info.unsafe_to_break(), "unsafe to break "),
        (info.unsafe_to_concat(), "unsafe to concat "),
        (info.safe_to_insert_tatweel(), "safe to insert tatweel"),
    ];
    out.push_str("<td>")?;
    for (holds, word) in words.iter() {
        if *holds {
            out.push_str(word)?;
        }
    }
    out.push_str("</td></tr>\n")
}

/// A text with its bands, and the glyphs' names.
#[derive(Clone, Copy)]
pub(crate) struct Table<'a, N> {
    pub names: &'a N,
    pub text: &'a [Character],
    pub bands: &'a [Band],
}

impl<'a, N: glyph_names> Table<'a, N> {
    /// A glyph's row.
    fn row(
        &self,
        alloc: Global,
        at: usize,
        info: &hb_glyph_info_t,
        position: &GlyphPosition,
    ) -> Result<String, AllocError> {
        let mut row = String::new(alloc);
        let (glyph, cluster) = (info.glyph_id, info.cluster);
        let stop = if at == 0 { 0 } else { -1 };
        write!(
            row,
            "<tr data-i=\"{at}\" data-c=\"{cluster}\" tabindex=\"{stop}\"><th>"
        )?;
        push_name(&mut row, self.names, glyph)?;
        write!(row, "</th><td>{glyph}</td><td>{cluster}</td><td>")?;
        push_characters(&mut row, characters_of(self.text, self.bands, cluster))?;
        row.push_str("</td>")?;
        push_position(&mut row, position)?;
        push_flags(&mut row, info)?;
        Ok(row)
    }

    /// The rows of glyphs, as many as [`MOST_BYTES`] hold.
    pub(crate) fn rows(
        &self,
        alloc: Global,
        infos: &[hb_glyph_info_t],
        positions: &[GlyphPosition],
    ) -> Result<Sheet, AllocError> {
        let mut rows = Sheet::new(alloc, MOST_BYTES);
        rows.put(COLUMNS)?;
        for (at, (info, position)) in infos.iter().zip(positions).enumerate() {
            if rows.is_full() {
                break;
            }
            let row = self.row(alloc, at, info, position)?;
            rows.put(row.as_str())?;
        }
        Ok(rows)
    }

    /// A band.
    fn band(&self, alloc: Global, at: usize, band: &Band) -> Result<String, AllocError> {
        let mut out = String::new(alloc);
        let (colour, cluster) = (at % 2, band.cluster);
        let cut = if band.cut { " cut" } else { "" };
        let stop = if at == 0 { 0 } else { -1 };
        write!(
            out,
            "<span class=\"band band{colour}{cut}\" data-c=\"{cluster}\" tabindex=\"{stop}\">"
        )?;
        push_text(&mut out, self.text.get(band.start..band.end).unwrap_or(&[]))?;
        out.push_str("</span>")?;
        Ok(out)
    }

    /// The text in bands, as many as [`MOST_BYTES`] hold.
    pub(crate) fn banded(&self, alloc: Global) -> Result<Sheet, AllocError> {
        let mut out = Sheet::new(alloc, MOST_BYTES);
        for (at, band) in self.bands.iter().enumerate() {
            if out.is_full() {
                break;
            }
            let band = self.band(alloc, at, band)?;
            out.put(band.as_str())?;
        }
        Ok(out)
    }
}
