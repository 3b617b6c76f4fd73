//! Masks of the forms of letters that join, and the flags of glyphs that joining needs.
ghost use Rattle.std.specs.Prelude.{◌≡◌, ◌<◌, ◌≤◌, ◌+◌, length, reverse, drop, None};
ghost use Rattle.std.specs.List.{find};
ghost use Rattle.std.specs.Option.{option_map};
ghost use Rattle.shape_items.specs.Items.{char_of};
ghost use Rattle.shape_items.specs.Buffer.{limit_of};
ghost use Rattle.shape_buffer.specs.Outcome.{Made};
ghost use Rattle.letter_joining.specs.Joining.{kind_of};
ghost use Rattle.letter_joining.specs.Forms.{form_mask, is_opaque, is_opaque_item, same};
ghost use Rattle.letter_joining.specs.Forms.{kind_or, first_kind, kind_before, kind_after};
ghost use Rattle.letter_joining.specs.Forms.{form_at, begun, formed_at, formed_to};
ghost use Rattle.letter_joining.specs.Forms.{formed, mask_list, kind_at};
ghost use Rattle.letter_joining.specs.Joining.{form_number};

use crate::joining::{Form, Kind, State, is_selector, kind_of, next_state, settled};
use shape_buffer::buffer::{hb_buffer_t, hb_glyph_info_t, hb_mask_t};

/// The masks of the seven features.
#[derive(Clone, Copy, Debug)]
pub struct FormMasks {
    pub isol: hb_mask_t,
    pub fina: hb_mask_t,
    pub fin2: hb_mask_t,
    pub fin3: hb_mask_t,
    pub medi: hb_mask_t,
    pub med2: hb_mask_t,
    pub init: hb_mask_t,
}

/// Where a walk over letters stands: what is before the next letter, and the form of the item
/// before.
#[derive(Clone, Copy, Debug)]
pub struct Joining {
    pub state: State,
    pub last: Form,
}

/// What a walk that sets masks is given: the masks, also by the places of forms, and what stands
/// after the text.
#[derive(Clone, Copy, Debug)]
struct Forming {
    masks: FormMasks,
    by_form: [hb_mask_t; 8],
    mongolian: bool,
    after: Option<Kind>,
}

/// The masks by the places of forms.
fn mask_list(masks: FormMasks) -> [hb_mask_t; 8]
    ensures { result ≡ mask_list masks }
{
    [
        0, masks.isol, masks.fina, masks.fin2, masks.fin3, masks.medi, masks.med2, masks.init,
    ]
}

fn form_mask(forming: &Forming, form: Form) -> hb_mask_t
    requires { forming.now.by_form ≡ mask_list forming.now.masks }
    ensures { result ≡ form_mask forming.now.masks form }
{
    forming.by_form[form_place(form)]
}

/// The place of a form among the masks.
fn form_place(form: Form) -> usize
    ensures value { result ≡ form_number form }
    ensures within { result < 8 }
{
    form as usize
}

fn is_opaque(c: char) -> bool
    ensures { result ≡ is_opaque c }
{
    kind_of(c).is_some()
}

fn is_opaque_item(info: &hb_glyph_info_t) -> bool
    ensures { result ≡ is_opaque_item info.now }
{
    is_opaque(info.codepoint)
}

fn first_opaque(context: &[char]) -> Option<char>
    ensures { result ≡ option_map same (find is_opaque context.now) }
{
    context.iter().find(|c| is_opaque(**c)).map(|c| *c)
}

fn last_opaque(context: &[char]) -> Option<char>
    ensures { result ≡ option_map same (find is_opaque (reverse context.now)) }
{
    context.iter().rev().find(|c| is_opaque(**c)).map(|c| *c)
}

fn opaque_item(infos: &[hb_glyph_info_t]) -> Option<char>
    ensures { result ≡ option_map char_of (find is_opaque_item infos.now) }
{
    infos
        .iter()
        .find(|info| is_opaque_item(info))
        .map(|info| info.codepoint)
}

fn kind_or(after: Option<Kind>, c: Option<char>) -> Option<Kind>
    ensures { result ≡ kind_or after c }
{
    match c {
        Some(c) => kind_of(c),
        None => after,
    }
}

/// The kind of the first character that isn't transparent, in the order of the text.
pub fn kind_after(context: &[char]) -> Option<Kind>
    ensures { result ≡ kind_after context.now }
{
    kind_or(None, first_opaque(context))
}

/// The kind of the last character that isn't transparent.
pub fn kind_before(context: &[char]) -> Option<Kind>
    ensures { result ≡ kind_before context.now }
{
    kind_or(None, last_opaque(context))
}

/// The kind of the first item that isn't transparent, or that of what stands after the text.
#[inline(never)]
fn first_kind(infos: &[hb_glyph_info_t], after: Option<Kind>) -> Option<Kind>
    ensures { result ≡ first_kind infos.now after }
{
    kind_or(after, opaque_item(infos))
}

/// The kind of the item at a place, or that of what stands after the text.
fn kind_at(infos: &[hb_glyph_info_t], i: usize, after: Option<Kind>) -> Option<Kind>
    ensures { result ≡ kind_at infos.now i after }
{
    if i < infos.len() {
        kind_of(infos[i].codepoint)
    } else {
        after
    }
}

/// The kind of the first item from a place on that isn't transparent, by that of the item there:
/// only after a transparent one is it looked for.
fn first_from(
    infos: &[hb_glyph_info_t],
    i: usize,
    next: Option<Kind>,
    after: Option<Kind>,
) -> Option<Kind>
    requires within { i ≤ length infos.now }
    requires kind { next ≡ kind_at infos.now i after }
    ensures { result ≡ first_kind (drop i infos.now) after }
{
    if next.is_some() {
        next
    } else {
        first_kind(&infos[i..], after)
    }
}

/// Sets the mask of the form at a place, and returns where the walk stands after it, by the kinds
/// of this item and the next one. A transparent one looks at nothing, so that the time of a walk is
/// in step with its text.
fn form_at(
    forming: &Forming,
    joining: Joining,
    kind: Option<Kind>,
    next: Option<Kind>,
    buffer: &mut hb_buffer_t,
    i: usize,
) -> Joining
    requires within { i < length buffer.old.items }
    requires masks { forming.now.by_form ≡ mask_list forming.now.masks }
    requires this { kind ≡ kind_at buffer.old.items i forming.now.after }
    requires next { next ≡ kind_at buffer.old.items (i + 1) forming.now.after }
    ensures made { buffer.new
        ≡ formed_at forming.now.masks forming.now.mongolian forming.now.after joining i buffer.old }
    ensures value { result
        ≡ form_at forming.now.mongolian forming.now.after joining i buffer.old }
    ensures kinds { kind_at buffer.new.items (i + 1) forming.now.after ≡ next }
    ensures len { length buffer.new.items ≡ length buffer.old.items }
    ensures limit { limit_of buffer.new ≡ limit_of buffer.old }
{
    let mut info = buffer.infos()[i];
    let joined = match kind {
        Some(kind) => Joining {
            state: next_state(joining.state, kind),
            last: settled(
                joining.state,
                kind,
                first_from(buffer.infos(), i + 1, next, forming.after),
            ),
        },
        None if forming.mongolian && is_selector(info.codepoint) => joining,
        None => Joining {
            state: joining.state,
            last: Form::None,
        },
    };
    info.mask |= form_mask(forming, joined.last);
    buffer.set_info(i, info);
    joined
}

/// Where a walk begins after a kind of character.
pub fn begun(before: Option<Kind>) -> Joining
    ensures { result ≡ begun before }
{
    let state = match before {
        Some(kind) => next_state(State::Free, kind),
        None => State::Free,
    };
    Joining {
        state,
        last: Form::None,
    }
}

/// Sets the masks of the forms of all letters.
pub fn form_all(masks: FormMasks, mongolian: bool, buffer: &mut hb_buffer_t)
    ensures { Made (formed masks mongolian) buffer.old buffer.new }
{
    let mut joining = begun(kind_before(buffer.pre_context()));
    let after = kind_after(buffer.post_context());
    let forming = Forming {
        masks,
        by_form: mask_list(masks),
        mongolian,
        after,
    };
    let mut kind = kind_at(buffer.infos(), 0, after);
    for i in 0..buffer.len() {
        let next = kind_at(buffer.infos(), i + 1, after);
        joining = form_at(&forming, joining, kind, next, buffer, i);
        kind = next;
    }
}
