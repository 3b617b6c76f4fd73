//! The forms of letters: one glyph in place of another.
ghost use Rattle.std.specs.Prelude.{◌≡◌, List, IfOk, OnOk, IsOkUnless, fold};
ghost use Rattle.std.specs.List.{find};
ghost use Rattle.std.specs.Option.{option_map};
ghost use Rattle.shape_buffer.specs.Outcome.{Made};
ghost use Rattle.arabic_fallback.specs.Classes.{class_by};
ghost use Rattle.arabic_fallback.specs.Forms as form_rules;

use crate::classes::class_of;
use crate::replaced::{NewGlyph, replaced};
use crate::seeking::{Rule, is_on};
use crate::tables::Forms;
use shape_buffer::buffer::{ShapeError, hb_buffer_t, hb_glyph_info_t};
use shape_buffer::interfaces::{hb_font_t, hb_ot_layout_t};
use shape_buffer::walks::update_items;
use std::alloc::Global;

/// A form of letters.
#[derive(Clone, Copy, PartialEq, Eq, Debug)]
pub enum Form {
    Init,
    Medi,
    Fina,
    Isol,
}

/// The glyph of a letter, and that of its form.
#[derive(Clone, Copy, PartialEq, Eq, Debug)]
pub struct FormGlyphs {
    pub letter: u32,
    pub form: NewGlyph,
}

fn form_in(forms: Forms, form: Form) -> char
    ensures { result ≡ form_rules.form_in forms form }
{
    match form {
        Form::Init => forms.1,
        Form::Medi => forms.2,
        Form::Fina => forms.3,
        Form::Isol => forms.4,
    }
}

/// The glyph of a character; U+0000 stands for none.
pub fn glyph_of<F: hb_font_t>(face: &F, c: char) -> Option<u32>
    ensures { result ≡ form_rules.glyph_of (F.face face.now) c }
{
    if c == '\0' {
        return None;
    }
    face.get_nominal_glyph(c).map(|glyph| glyph.0)
}

/// Two glyphs that differ, of numbers of 16 bits.
fn both_of(letter: u32, form: u32) -> Option<(u32, u32)>
    ensures { result ≡ form_rules.both_of letter form }
{
    if letter != form && letter <= 0xFFFF && form <= 0xFFFF {
        Some((letter, form))
    } else {
        None
    }
}

/// The glyphs of a letter and of its form, if the face has both.
fn pair_of<F: hb_font_t>(face: &F, form: Form, forms: Forms) -> Option<(u32, u32)>
    ensures { result ≡ form_rules.pair_of (F.face face.now) form forms }
{
    match (
        glyph_of(face, forms.0),
        glyph_of(face, form_in(forms, form)),
    ) {
        (Some(letter), Some(formed)) => both_of(letter, formed),
        _ => None,
    }
}

/// Appends the glyphs of a letter and of its form, if the face has both.
fn append<F: hb_font_t, M: hb_ot_layout_t<F>>(
    alloc: Global,
    face: &F,
    map: &M::Map,
    form: Form,
    rows: &mut Vec<FormGlyphs>,
    forms: Forms,
) -> Result<(), ShapeError>
    ensures ok { OnOk result (rows.new.items ≡ form_rules.with_form (F.face face.now)
        (class_by (M.layout face.now).has_glyph_classes
        (M.lookups map.now face.now).substitute_start)
        form rows.old.items forms) }
    ensures memory { IsOkUnless result ShapeError.Memory }
{
    if let Some((letter, glyph)) = pair_of(face, form, forms) {
        let class = class_of::<F, M>(alloc, face, map, glyph)?;
        rows.push(FormGlyphs {
            letter,
            form: NewGlyph { glyph, class },
        })?;
    }
    Ok(())
}

/// The glyphs of letters and of their forms that the face has. Refuses with `Memory` alone.
fn form_rows<F: hb_font_t, M: hb_ot_layout_t<F>>(
    alloc: Global,
    face: &F,
    map: &M::Map,
    form: Form,
    table: &[Forms],
) -> Result<Vec<FormGlyphs>, ShapeError>
    ensures ok { IfOk result (λ rows. rows.items ≡ form_rules.form_rows (F.face face.now)
        (class_by (M.layout face.now).has_glyph_classes
        (M.lookups map.now face.now).substitute_start)
        form table.now) }
    ensures memory { IsOkUnless result ShapeError.Memory }
{
    let mut rows = Vec::new(alloc);
    for forms in table {
        append::<F, M>(alloc, face, map, form, &mut rows, *forms)?;
    }
    Ok(rows)
}

fn listed(rows: &[FormGlyphs], glyph: u32) -> Option<NewGlyph>
    ensures { result ≡ form_rules.listed rows.now glyph }
{
    rows.iter()
        .find(|row| row.letter == glyph)
        .map(|row| row.form)
}

/// An item with its form, if the lookup is on for it.
fn formed(rule: Rule, rows: &[FormGlyphs], info: &hb_glyph_info_t) -> hb_glyph_info_t
    ensures { result ≡ form_rules.formed rule rows.now info.now }
{
    if !is_on(rule, info) {
        return *info;
    }
    match listed(rows, info.glyph_id) {
        Some(form) => replaced(form, None, *info),
        None => *info,
    }
}

/// Puts the form in place of each letter that has one.
fn put_listed(rule: Rule, rows: &[FormGlyphs], buffer: &mut hb_buffer_t)
    ensures { Made (form_rules.put_forms rule rows.now) buffer.old buffer.new }
{
    update_items(buffer, |info| formed(rule, rows, info));
}

/// Puts a form in place of each letter for which it is on, if the face has both. Refuses with
/// `Memory` alone.
pub fn put_forms<F: hb_font_t, M: hb_ot_layout_t<F>>(
    alloc: Global,
    face: &F,
    map: &M::Map,
    mask: u32,
    form: Form,
    buffer: &mut hb_buffer_t,
) -> Result<(), ShapeError>
    ensures ok { OnOk result (Made (form_rules.formed_by (F.face face.now)
        (class_by (M.layout face.now).has_glyph_classes
        (M.lookups map.now face.now).substitute_start)
        form mask) buffer.old buffer.new) }
    ensures memory { IsOkUnless result ShapeError.Memory }
{
    let rows = form_rows::<F, M>(alloc, face, map, form, &crate::tables::FORMS)?;
    let rule = Rule {
        mask,
        ignores_marks: true,
    };
    put_listed(rule, rows.as_slice(), buffer);
    Ok(())
}
