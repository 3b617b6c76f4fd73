//! Forms of marks and letters that fonts of Thai without `GSUB` have at private characters: a mark
//! moves down or left, by what stands below or beside it, and a letter loses its descender.
ghost use Rattle.std.specs.Prelude.{◌≡◌, ◌<◌, ◌≤◌, length};
ghost use Rattle.std.specs.List.{find};
ghost use Rattle.std.specs.Option.{option_map};
ghost use Rattle.shape_items.specs.Buffer.{limit_of};
ghost use Rattle.shape_buffer.specs.Outcome.{Made};
ghost use Rattle.script_shapers.specs.ThaiForms.{mark_of, above_start, below_start, above_action};
ghost use Rattle.script_shapers.specs.ThaiForms.{above_after, below_action, below_after, action_of};
ghost use Rattle.script_shapers.specs.ThaiForms.{listed, forms_of, first_of, form_of, place_of};
ghost use Rattle.script_shapers.specs.ThaiForms.{walk_from, walk_over, walk_at, ends_marks};
ghost use Rattle.script_shapers.specs.ThaiForms.{marks_spanned, char_formed, mark_formed};
ghost use Rattle.script_shapers.specs.ThaiForms.{formed_at};
ghost use Rattle.script_shapers.specs.ThaiForms.{begun_walk, formed_to, forms_put};

use shape_buffer::buffer::{hb_buffer_t, hb_glyph_info_t};
use shape_buffer::interfaces::hb_font_t;

/// Where a mark of Thai stands.
#[derive(Clone, Copy, Debug)]
pub enum Mark {
    /// A vowel above the letter.
    Above,
    /// A vowel below it.
    Below,
    /// A tone mark, above all others.
    Tone,
}

/// What stands above a letter.
#[derive(Clone, Copy, Debug)]
pub enum Above {
    /// Nothing: a tone mark comes down.
    Nothing,
    /// Its ascender: marks move to the left of it.
    Ascender,
    /// Its ascender and a mark to the left of it.
    Beside,
    /// Something that marks stand on as they are.
    Full,
}

/// What stands below a letter.
#[derive(Clone, Copy, Debug)]
pub enum Below {
    Nothing,
    /// A descender, which can be left out.
    Removable,
    /// A descender or a mark: another mark moves down.
    Full,
}

/// What is done with a mark.
#[derive(Clone, Copy, Debug)]
pub enum Action {
    Nothing,
    Down,
    Left,
    DownLeft,
    /// The letter loses its descender.
    Descender,
}

/// Where a walk over a text stands.
#[derive(Clone, Copy, Debug)]
pub struct Walk {
    pub above: Above,
    pub below: Below,
    /// The place of the last letter.
    pub base: usize,
}

/// A character, and its form at private characters of Windows and of Macintosh.
type Forms = (char, char, char);

pub const DOWN: [Forms; 8] = [
    ('\u{0E48}', '\u{F70A}', '\u{F88B}'),
    ('\u{0E49}', '\u{F70B}', '\u{F88E}'),
    ('\u{0E4A}', '\u{F70C}', '\u{F891}'),
    ('\u{0E4B}', '\u{F70D}', '\u{F894}'),
    ('\u{0E4C}', '\u{F70E}', '\u{F897}'),
    ('\u{0E38}', '\u{F718}', '\u{F89B}'),
    ('\u{0E39}', '\u{F719}', '\u{F89C}'),
    ('\u{0E3A}', '\u{F71A}', '\u{F89D}'),
];

pub const DOWN_LEFT: [Forms; 5] = [
    ('\u{0E48}', '\u{F705}', '\u{F88C}'),
    ('\u{0E49}', '\u{F706}', '\u{F88F}'),
    ('\u{0E4A}', '\u{F707}', '\u{F892}'),
    ('\u{0E4B}', '\u{F708}', '\u{F895}'),
    ('\u{0E4C}', '\u{F709}', '\u{F898}'),
];

pub const LEFT: [Forms; 12] = [
    ('\u{0E48}', '\u{F713}', '\u{F88A}'),
    ('\u{0E49}', '\u{F714}', '\u{F88D}'),
    ('\u{0E4A}', '\u{F715}', '\u{F890}'),
    ('\u{0E4B}', '\u{F716}', '\u{F893}'),
    ('\u{0E4C}', '\u{F717}', '\u{F896}'),
    ('\u{0E31}', '\u{F710}', '\u{F884}'),
    ('\u{0E34}', '\u{F701}', '\u{F885}'),
    ('\u{0E35}', '\u{F702}', '\u{F886}'),
    ('\u{0E36}', '\u{F703}', '\u{F887}'),
    ('\u{0E37}', '\u{F704}', '\u{F888}'),
    ('\u{0E47}', '\u{F712}', '\u{F889}'),
    ('\u{0E4D}', '\u{F711}', '\u{F899}'),
];

pub const NO_DESCENDER: [Forms; 2] = [
    ('\u{0E0D}', '\u{F70F}', '\u{F89A}'),
    ('\u{0E10}', '\u{F700}', '\u{F89E}'),
];

fn mark_of(c: char) -> Option<Mark>
    ensures { result ≡ mark_of c }
{
    match c {
        '\u{0E31}' | '\u{0E34}'..='\u{0E37}' | '\u{0E47}' | '\u{0E4D}'..='\u{0E4E}' => {
            Some(Mark::Above)
        }
        '\u{0E38}'..='\u{0E3A}' => Some(Mark::Below),
        '\u{0E48}'..='\u{0E4C}' => Some(Mark::Tone),
        _ => None,
    }
}

/// What stands above a letter without marks, or above another character.
fn above_start(c: char) -> Above
    ensures { result ≡ above_start c }
{
    match c {
        '\u{0E1B}' | '\u{0E1D}' | '\u{0E1F}' => Above::Ascender,
        '\u{0E01}'..='\u{0E2E}' => Above::Nothing,
        _ => Above::Full,
    }
}

/// What stands below it.
fn below_start(c: char) -> Below
    ensures { result ≡ below_start c }
{
    match c {
        '\u{0E0D}' | '\u{0E10}' => Below::Removable,
        '\u{0E0E}' | '\u{0E0F}' => Below::Full,
        '\u{0E01}'..='\u{0E2E}' => Below::Nothing,
        _ => Below::Full,
    }
}

/// What is done with a mark by what stands above.
fn above_action(above: Above, mark: Mark) -> Action
    ensures { result ≡ above_action above mark }
{
    match (above, mark) {
        (Above::Nothing, Mark::Tone) => Action::Down,
        (Above::Ascender, Mark::Above) => Action::Left,
        (Above::Ascender, Mark::Tone) => Action::DownLeft,
        (Above::Beside, Mark::Tone) => Action::Left,
        _ => Action::Nothing,
    }
}

/// What stands above then.
fn above_after(above: Above, mark: Mark) -> Above
    ensures { result ≡ above_after above mark }
{
    match (above, mark) {
        (_, Mark::Below) => above,
        (Above::Ascender, _) => Above::Beside,
        _ => Above::Full,
    }
}

/// What is done with a mark by what stands below.
fn below_action(below: Below, mark: Mark) -> Action
    ensures { result ≡ below_action below mark }
{
    match (below, mark) {
        (Below::Removable, Mark::Below) => Action::Descender,
        (Below::Full, Mark::Below) => Action::Down,
        _ => Action::Nothing,
    }
}

/// What stands below then.
fn below_after(below: Below, mark: Mark) -> Below
    ensures { result ≡ below_after below mark }
{
    match mark {
        Mark::Below => Below::Full,
        _ => below,
    }
}

/// At most one of the two does something.
fn action_of(walk: Walk, mark: Mark) -> Action
    ensures { result ≡ action_of walk mark }
{
    match above_action(walk.above, mark) {
        Action::Nothing => below_action(walk.below, mark),
        action => action,
    }
}

fn listed(forms: &[Forms], c: char) -> Option<Forms>
    ensures { result ≡ listed forms.now c }
{
    forms.iter().find(|entry| entry.0 == c).map(|entry| *entry)
}

fn forms_of(action: Action, c: char) -> Option<Forms>
    ensures { result ≡ forms_of action c }
{
    match action {
        Action::Nothing => None,
        Action::Down => listed(&DOWN, c),
        Action::Left => listed(&LEFT, c),
        Action::DownLeft => listed(&DOWN_LEFT, c),
        Action::Descender => listed(&NO_DESCENDER, c),
    }
}

/// The first of the two forms that the face has a glyph for, or the character itself.
fn first_of<F: hb_font_t>(face: &F, forms: Forms) -> char
    ensures { result ≡ first_of (F.face face.now) forms }
{
    if face.has_glyph(forms.1) {
        forms.1
    } else if face.has_glyph(forms.2) {
        forms.2
    } else {
        forms.0
    }
}

/// A character after an action.
fn form_of<F: hb_font_t>(face: &F, action: Action, c: char) -> char
    ensures { result ≡ form_of (F.face face.now) action c }
{
    match forms_of(action, c) {
        Some(forms) => first_of(face, forms),
        None => c,
    }
}

/// The place of the character that an action changes: that of the letter if it loses its descender.
fn place_of(action: Action, base: usize, i: usize) -> usize
    ensures value { result ≡ place_of action base i }
    ensures within { result ≤ i }
{
    match action {
        Action::Descender => base.min(i),
        _ => i,
    }
}

/// Where a walk stands after a letter, or another character that is no mark.
fn walk_from(c: char, i: usize) -> Walk
    ensures { result ≡ walk_from c i }
{
    Walk {
        above: above_start(c),
        below: below_start(c),
        base: i,
    }
}

/// Where a walk stands after a mark.
fn walk_over(walk: Walk, mark: Mark) -> Walk
    ensures { result ≡ walk_over walk mark }
{
    Walk {
        above: above_after(walk.above, mark),
        below: below_after(walk.below, mark),
        base: walk.base,
    }
}

/// Whether no mark comes after the first item of a list.
fn ends_marks(rest: &[hb_glyph_info_t]) -> bool
    ensures { result ≡ ends_marks rest.now }
{
    match rest.get(1) {
        Some(next) => mark_of(next.codepoint).is_none(),
        None => true,
    }
}

/// Marks a letter and its marks unsafe to break once the last of them is reached, so that each is
/// marked once.
fn span_marks(buffer: &mut hb_buffer_t, base: usize, i: usize)
    requires { i < length buffer.old.items }
    ensures made { buffer.new ≡ marks_spanned base i buffer.old }
    ensures len { length buffer.new.items ≡ length buffer.old.items }
    ensures limit { limit_of buffer.new ≡ limit_of buffer.old }
{
    if ends_marks(&buffer.infos()[i..]) {
        buffer.unsafe_to_break(base.min(i), i);
    }
}

/// Changes a character as an action says.
fn form_char<F: hb_font_t>(face: &F, buffer: &mut hb_buffer_t, action: Action, place: usize)
    requires { place < length buffer.old.items }
    ensures made { buffer.new ≡ char_formed (F.face face.now) action place buffer.old }
    ensures len { length buffer.new.items ≡ length buffer.old.items }
    ensures limit { limit_of buffer.new ≡ limit_of buffer.old }
{
    let mut info = buffer.infos()[place];
    info.codepoint = form_of(face, action, info.codepoint);
    buffer.set_info(place, info);
}

/// Puts a mark, or the letter that it stands on, in its form.
fn form_mark<F: hb_font_t>(face: &F, buffer: &mut hb_buffer_t, walk: Walk, mark: Mark, i: usize)
    requires { i < length buffer.old.items }
    ensures made { buffer.new ≡ mark_formed (F.face face.now) walk mark i buffer.old }
    ensures len { length buffer.new.items ≡ length buffer.old.items }
    ensures limit { limit_of buffer.new ≡ limit_of buffer.old }
{
    let action = action_of(walk, mark);
    span_marks(buffer, walk.base, i);
    form_char(face, buffer, action, place_of(action, walk.base, i));
}

/// Goes over the item at a place, and returns where the walk stands then.
fn form_at<F: hb_font_t>(face: &F, buffer: &mut hb_buffer_t, walk: Walk, i: usize) -> Walk
    requires { i < length buffer.old.items }
    ensures made { buffer.new ≡ formed_at (F.face face.now) walk i buffer.old }
    ensures value { result ≡ walk_at walk i buffer.old }
    ensures len { length buffer.new.items ≡ length buffer.old.items }
    ensures limit { limit_of buffer.new ≡ limit_of buffer.old }
{
    let c = buffer.infos()[i].codepoint;
    match mark_of(c) {
        Some(mark) => {
            form_mark(face, buffer, walk, mark, i);
            walk_over(walk, mark)
        }
        None => walk_from(c, i),
    }
}

/// Puts all marks and letters in their forms.
pub fn form_all<F: hb_font_t>(face: &F, buffer: &mut hb_buffer_t)
    ensures { Made (forms_put (F.face face.now)) buffer.old buffer.new }
{
    let mut walk = Walk {
        above: Above::Full,
        below: Below::Full,
        base: 0,
    };
    for i in 0..buffer.len() {
        walk = form_at(face, buffer, walk, i);
    }
}
