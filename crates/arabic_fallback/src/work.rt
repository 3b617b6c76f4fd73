//! What the search for ligatures at a place is charged before it is made, so that a text's time has
//! a bound, whatever the font.
ghost use Rattle.std.specs.Prelude.{◌≡◌, ◌<◌, ◌≤◌, length};
ghost use Rattle.std.specs.List.{prefix_len};
ghost use Rattle.arabic_fallback.specs.Work;

use crate::ligatures::LigatureGlyphs;
use crate::seeking::{Rule, is_skipped, passes};
use crate::vain::count_of;
use shape_buffer::buffer::hb_glyph_info_t;

/// How often a ligature may be sought at a place: twice, and four times more for how far it looked
/// in vain.
const SEARCHES: usize = 6;

fn is_passed(rule: Rule, info: &hb_glyph_info_t) -> bool
    ensures { result ≡ Work.is_passed rule info.now }
{
    is_skipped(rule, info) || passes(info)
}

/// How many glyphs at the beginning of a list a search passes over.
fn count_passed(rule: Rule, rest: &[hb_glyph_info_t]) -> usize
    ensures value { result ≡ prefix_len (Work.is_passed rule) rest.now }
    ensures within { result ≤ length rest.now }
{
    rest.iter().take_while(|info| is_passed(rule, info)).count()
}

/// The first place from one on whose glyph isn't passed over, or the end.
fn passed_to(rule: Rule, infos: &[hb_glyph_info_t], from: usize) -> usize
    ensures value { result ≡ Work.passed_to rule infos.now from }
    ensures within { result ≤ length infos.now }
{
    if from < infos.len() {
        from + count_passed(rule, &infos[from..])
    } else {
        infos.len()
    }
}

/// How many glyphs a ligature of three may look at.
fn looks(rule: Rule, infos: &[hb_glyph_info_t], at: usize) -> usize
    requires { at < length infos.now }
    ensures { result ≡ Work.looks rule infos.now at }
{
    let second = passed_to(rule, infos, at + 1);
    passed_to(rule, infos, second + 1).saturating_sub(at)
}

fn search_work(count: usize, each: usize) -> usize
    ensures { result ≡ Work.search_work count each }
{
    count.saturating_mul(each).saturating_mul(SEARCHES)
}

/// What is left after the ligatures that begin with the glyph at a place were charged, if it
/// suffices. Takes as long as what it charges, and no time once nothing is left.
pub fn search_charged(
    rule: Rule,
    rows: &[LigatureGlyphs],
    infos: &[hb_glyph_info_t],
    at: usize,
    left: usize,
) -> Option<usize>
    requires { at < length infos.now }
    ensures { result ≡ Work.search_charged rule rows.now infos.now at left }
{
    let count = count_of(rows, infos[at].glyph_id);
    if count == 0 {
        return Some(left);
    }
    if left == 0 {
        return None;
    }
    let work = search_work(count, looks(rule, infos, at));
    if left < work { None } else { Some(left - work) }
}
