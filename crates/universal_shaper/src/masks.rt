//! Masks of features that belong to places of a syllable: the sign for a repha at its beginning,
//! and forms of whole syllables.
ghost use Rattle.std.specs.Prelude.{◌≡◌, ◌<◌, ◌≤◌, ◌+◌, ◌-◌, length};
ghost use Rattle.shape_items.specs.Buffer.{limit_of};
ghost use Rattle.shape_buffer.specs.Outcome.{Made};
ghost use Rattle.universal_shaper.specs.Masks;

use shape_buffer::buffer::{hb_buffer_t, hb_glyph_info_t, hb_mask_t};
use syllabic::walking::{begins_at, end_of, kind_of_byte};
use syllables::categories::universal::R;
use syllables::universal::{HIEROGLYPH, NON_CLUSTER};

/// Adds a mask to the item at a place.
fn add_mask(buffer: &mut hb_buffer_t, mask: hb_mask_t, i: usize)
    requires { i < length buffer.old.items }
    ensures made { buffer.new ≡ Masks.mask_added mask i buffer.old }
    ensures len { length buffer.new.items ≡ length buffer.old.items }
    ensures limit { limit_of buffer.new ≡ limit_of buffer.old }
{
    let mut info = buffer.infos()[i];
    info.mask |= mask;
    buffer.set_info(i, info);
}

/// Adds a mask to so many items.
fn add_masks(buffer: &mut hb_buffer_t, mask: hb_mask_t, start: usize, count: usize)
    requires { start + count ≤ length buffer.old.items }
    ensures made { buffer.new ≡ Masks.masks_added mask start count buffer.old }
    ensures len { length buffer.new.items ≡ length buffer.old.items }
    ensures limit { limit_of buffer.new ≡ limit_of buffer.old }
{
    let _count = buffer.len();
    for k in 0..count {
        add_mask(buffer, mask, start + k);
    }
}

/// How many items of a syllable may become a repha: one that is a sign for it, or three.
fn repha_count(first: &hb_glyph_info_t, count: usize) -> usize
    ensures value { result ≡ Masks.repha_count first.now count }
    ensures within { 0 < count → result ≤ count }
{
    if first._hb_glyph_info_get_shaper_category() == R {
        1
    } else {
        count.min(3)
    }
}

/// Masks the beginning of the syllable that begins at a place.
fn mask_repha_at(mask: hb_mask_t, buffer: &mut hb_buffer_t, i: usize)
    requires { i < length buffer.old.items }
    ensures made { buffer.new ≡ Masks.repha_masked_at mask i buffer.old }
    ensures len { length buffer.new.items ≡ length buffer.old.items }
    ensures limit { limit_of buffer.new ≡ limit_of buffer.old }
{
    if begins_at(buffer.infos(), i) {
        let count = end_of(buffer.infos(), i) - i;
        let count = repha_count(&buffer.infos()[i], count);
        add_masks(buffer, mask, i, count);
    }
}

/// Masks the beginnings of all syllables.
pub fn mask_rephas(mask: hb_mask_t, buffer: &mut hb_buffer_t)
    ensures { Made (Masks.rephas_masked mask) buffer.old buffer.new }
{
    for i in 0..buffer.len() {
        mask_repha_at(mask, buffer, i);
    }
}

/// The masks of the forms of syllables.
#[derive(Clone, Copy, Debug)]
pub struct FormMasks {
    pub isol: hb_mask_t,
    pub init: hb_mask_t,
    pub medi: hb_mask_t,
    pub fina: hb_mask_t,
}

/// The form of a syllable.
#[derive(Clone, Copy, PartialEq, Eq, Debug)]
pub enum Form {
    None,
    Isol,
    Init,
    Medi,
    Fina,
}

/// Where a walk stands: the start of the last syllable, and its form.
#[derive(Clone, Copy, Debug)]
pub struct Formed {
    pub start: usize,
    pub form: Form,
}

fn form_mask(masks: FormMasks, form: Form) -> hb_mask_t
    ensures { result ≡ Masks.form_mask masks form }
{
    match form {
        Form::None => 0,
        Form::Isol => masks.isol,
        Form::Init => masks.init,
        Form::Medi => masks.medi,
        Form::Fina => masks.fina,
    }
}

/// All of them together.
fn all_masks(masks: FormMasks) -> hb_mask_t
    ensures { result ≡ Masks.all_masks masks }
{
    masks.isol | masks.init | masks.medi | masks.fina
}

/// A mask without the bits of another one.
fn without_bits(mask: hb_mask_t, bits: hb_mask_t) -> hb_mask_t
    ensures { result ≡ Masks.without_bits mask bits }
{
    mask ^ (mask & bits)
}

/// Sets the mask of a form at a place, in place of those of the others.
fn set_form(buffer: &mut hb_buffer_t, masks: FormMasks, form: Form, i: usize)
    requires { i < length buffer.old.items }
    ensures made { buffer.new ≡ Masks.form_set masks form i buffer.old }
    ensures len { length buffer.new.items ≡ length buffer.old.items }
    ensures limit { limit_of buffer.new ≡ limit_of buffer.old }
{
    let mut info = buffer.infos()[i];
    info.mask = without_bits(info.mask, all_masks(masks)) | form_mask(masks, form);
    buffer.set_info(i, info);
}

/// Sets the mask of a form from a place up to another one.
fn set_forms(buffer: &mut hb_buffer_t, masks: FormMasks, form: Form, start: usize, end: usize)
    requires { end ≤ length buffer.old.items }
    ensures made { buffer.new ≡ Masks.forms_set masks form start (end - start) buffer.old }
    ensures len { length buffer.new.items ≡ length buffer.old.items }
    ensures limit { limit_of buffer.new ≡ limit_of buffer.old }
{
    for k in 0..end.saturating_sub(start) {
        set_form(buffer, masks, form, start + k);
    }
}

/// Whether a syllable of this form joins to the next one.
fn joins_on(form: Form) -> bool
    ensures { result ≡ Masks.joins_on form }
{
    matches!(form, Form::Isol | Form::Fina)
}

/// The form of a syllable that another one joins.
fn joined(form: Form) -> Form
    ensures { result ≡ Masks.joined form }
{
    match form {
        Form::Fina => Form::Medi,
        _ => Form::Init,
    }
}

/// Whether syllables of a kind have forms.
fn has_forms(byte: u8) -> bool
    ensures { result ≡ Masks.has_forms byte }
{
    let kind = kind_of_byte(byte);
    kind != HIEROGLYPH && kind < NON_CLUSTER
}

/// The form of a syllable after one of another form.
fn form_after(form: Form) -> Form
    ensures { result ≡ Masks.form_after form }
{
    if joins_on(form) {
        Form::Fina
    } else {
        Form::Isol
    }
}

/// Sets the forms of the syllable between two places, and of the one before it that it joins.
fn set_both(buffer: &mut hb_buffer_t, masks: FormMasks, before: Formed, start: usize, end: usize)
    requires ordered { start ≤ end }
    requires within { end ≤ length buffer.old.items }
    ensures made { buffer.new ≡ Masks.both_set masks before start end buffer.old }
    ensures len { length buffer.new.items ≡ length buffer.old.items }
    ensures limit { limit_of buffer.new ≡ limit_of buffer.old }
{
    if joins_on(before.form) {
        set_forms(buffer, masks, joined(before.form), before.start, start);
    }
    set_forms(buffer, masks, form_after(before.form), start, end);
}

/// Sets the forms at a place where a syllable begins, and returns where the walk stands then.
fn form_at(masks: FormMasks, before: Formed, buffer: &mut hb_buffer_t, i: usize) -> Formed
    requires { i < length buffer.old.items }
    ensures made { buffer.new ≡ Masks.formed_at masks before i buffer.old }
    ensures value { result ≡ Masks.form_at before i buffer.old }
    ensures len { length buffer.new.items ≡ length buffer.old.items }
    ensures limit { limit_of buffer.new ≡ limit_of buffer.old }
{
    if !begins_at(buffer.infos(), i) {
        return before;
    }
    if !has_forms(buffer.infos()[i]._hb_glyph_info_get_syllable()) {
        return Formed {
            start: i,
            form: Form::None,
        };
    }
    let end = end_of(buffer.infos(), i);
    set_both(buffer, masks, before, i, end);
    Formed {
        start: i,
        form: form_after(before.form),
    }
}

/// Sets the forms of all syllables.
pub fn set_all_forms(masks: FormMasks, buffer: &mut hb_buffer_t)
    ensures { Made (Masks.all_forms_set masks) buffer.old buffer.new }
{
    let mut formed = Formed {
        start: 0,
        form: Form::None,
    };
    for i in 0..buffer.len() {
        formed = form_at(masks, formed, buffer, i);
    }
}

/// The mask of a form, 0 if it is on everywhere.
fn own_mask(mask: hb_mask_t, global: hb_mask_t) -> hb_mask_t
    ensures { result ≡ Masks.own_mask mask global }
{
    if mask == global { 0 } else { mask }
}

/// The masks of forms without those that are on everywhere.
pub fn own_masks(masks: FormMasks, global: hb_mask_t) -> FormMasks
    ensures { result ≡ Masks.own_masks masks global }
{
    FormMasks {
        isol: own_mask(masks.isol, global),
        init: own_mask(masks.init, global),
        medi: own_mask(masks.medi, global),
        fina: own_mask(masks.fina, global),
    }
}

/// Sets the forms of all syllables if the font has any.
pub fn set_forms_if_any(masks: FormMasks, buffer: &mut hb_buffer_t)
    ensures { Made (Masks.forms_set_if_any masks) buffer.old buffer.new }
{
    if all_masks(masks) != 0 {
        set_all_forms(masks, buffer);
    }
}
