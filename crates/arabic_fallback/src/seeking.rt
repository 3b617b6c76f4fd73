//! Where the next component of a ligature stands.
ghost use Rattle.std.specs.Prelude.{◌≡◌, ◌<◌, ◌≤◌, length};
ghost use Rattle.std.specs.List.{prefix_len};
ghost use Rattle.std.specs.Option.{IfSome};
ghost use Rattle.arabic_fallback.specs.Replaced.{shares};
ghost use Rattle.arabic_fallback.specs.Seeking;

use shape_buffer::buffer::{hb_glyph_info_t, hb_mask_t};

/// For which glyphs a lookup is on, and whether it passes over marks.
#[derive(Clone, Copy, PartialEq, Eq, Debug)]
pub struct Rule {
    pub mask: hb_mask_t,
    pub ignores_marks: bool,
}

/// Whether the class of a glyph is that of marks.
pub fn is_mark(info: &hb_glyph_info_t) -> bool
    ensures { result ≡ Seeking.is_mark info.now }
{
    info._hb_glyph_info_get_glyph_class().0 & 8 != 0
}

/// Whether the lookup passes over a glyph.
pub fn is_skipped(rule: Rule, info: &hb_glyph_info_t) -> bool
    ensures { result ≡ Seeking.is_skipped rule info.now }
{
    rule.ignores_marks && is_mark(info)
}

/// Whether the lookup may begin at the glyph.
pub fn is_on(rule: Rule, info: &hb_glyph_info_t) -> bool
    ensures { result ≡ Seeking.is_on rule info.now }
{
    info.mask & rule.mask != 0 && !is_skipped(rule, info)
}

/// Whether the lookup is on for a glyph.
pub fn has_mask(rule: Rule, info: &hb_glyph_info_t) -> bool
    ensures { result ≡ shares info.now.mask rule.mask }
{
    info.mask & rule.mask != 0
}

fn fits(rule: Rule, glyph: u32, info: &hb_glyph_info_t) -> bool
    ensures { result ≡ Seeking.fits rule glyph info.now }
{
    info.mask & rule.mask != 0 && info.glyph_id == glyph
}

/// Whether a default ignorable is passed over: all but ZWNJ and those that are hidden.
pub fn passes(info: &hb_glyph_info_t) -> bool
    ensures { result ≡ Seeking.passes info.now }
{
    info._hb_glyph_info_is_default_ignorable()
        && !info._hb_glyph_info_get_zwnj()
        && !info._hb_glyph_info_get_hidden()
}

/// Whether a glyph may stand before the one that is looked for.
fn is_between(rule: Rule, glyph: u32, info: &hb_glyph_info_t) -> bool
    ensures { result ≡ Seeking.is_between rule glyph info.now }
{
    is_skipped(rule, info) || (passes(info) && !fits(rule, glyph, info))
}

/// How many glyphs at the beginning of a list may stand before the one that is looked for.
fn count_between(rule: Rule, glyph: u32, rest: &[hb_glyph_info_t]) -> usize
    ensures value { result ≡ prefix_len (Seeking.is_between rule glyph) rest.now }
    ensures within { result ≤ length rest.now }
{
    rest.iter()
        .take_while(|info| is_between(rule, glyph, info))
        .count()
}

/// The place of the first glyph of a list that may not stand between, if it is the one that is
/// looked for.
fn place_in(rule: Rule, glyph: u32, rest: &[hb_glyph_info_t]) -> Option<usize>
    ensures value { result ≡ Seeking.place_in rule glyph rest.now }
    ensures inside { IfSome result (λ j. j < length rest.now) }
{
    let passed = count_between(rule, glyph, rest);
    if passed < rest.len() && fits(rule, glyph, &rest[passed]) {
        Some(passed)
    } else {
        None
    }
}

/// The same from a place of a text on.
pub fn place_from(rule: Rule, glyph: u32, infos: &[hb_glyph_info_t], from: usize) -> Option<usize>
    requires { from ≤ length infos.now }
    ensures value { result ≡ Seeking.place_of rule glyph infos.now from }
    ensures inside { IfSome result (λ j. j < length infos.now) }
    ensures after { IfSome result (λ j. from ≤ j) }
{
    match place_in(rule, glyph, &infos[from..]) {
        Some(passed) => Some(from + passed),
        None => None,
    }
}

/// Where the search from a place of a text on ended that didn't find the glyph.
pub fn stop_from(rule: Rule, glyph: u32, infos: &[hb_glyph_info_t], from: usize) -> usize
    requires { from ≤ length infos.now }
    ensures value { result ≡ Seeking.stop_of rule glyph infos.now from }
    ensures inside { result ≤ length infos.now }
{
    let passed = count_between(rule, glyph, &infos[from..]);
    if passed < infos.len() - from {
        from + passed + 1
    } else {
        infos.len()
    }
}

/// Whether a glyph may be a component together with the first one, by the ligatures that they
/// belong to.
pub fn joins(first: &hb_glyph_info_t, there: &hb_glyph_info_t) -> bool
    ensures { result ≡ Seeking.joins first.now there.now }
{
    let (id, component) = (
        first._hb_glyph_info_get_ligature_id(),
        first._hb_glyph_info_get_ligature_component(),
    );
    let (other, other_component) = (
        there._hb_glyph_info_get_ligature_id(),
        there._hb_glyph_info_get_ligature_component(),
    );
    if 0 < id && 0 < component {
        other == id && other_component == component
    } else {
        !(0 < other && 0 < other_component && other != id)
    }
}
