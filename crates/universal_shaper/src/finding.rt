//! The syllables of a text.
ghost use Rattle.std.specs.Prelude.{◌≡◌, ◌<◌, ◌≤◌, ◌+◌, length, drop};
ghost use Rattle.std.specs.List.{find};
ghost use Rattle.std.specs.Option.{option_map};
ghost use Rattle.shape_items.specs.Buffer.{limit_of};
ghost use Rattle.shape_buffer.specs.Outcome.{Made};
ghost use Rattle.universal_shaper.specs.Syllables;

use crate::categories::categorize;
use shape_buffer::buffer::{hb_buffer_t, hb_glyph_info_t};
use syllabic::scanning::number_syllables;
use syllabic::walking::mark_syllables;
use syllables::categories::universal::{CGJ, ZWNJ};
use syllables::universal::universal_machine;

fn is_skipped(info: &hb_glyph_info_t) -> bool
    ensures { result ≡ Syllables.is_skipped info.now }
{
    info._hb_glyph_info_get_shaper_category() == CGJ
}

fn is_counted(info: &hb_glyph_info_t) -> bool
    ensures { result ≡ Syllables.is_counted info.now }
{
    !is_skipped(info)
}

/// The first item that isn't skipped.
fn first_counted(infos: &[hb_glyph_info_t]) -> Option<hb_glyph_info_t>
    ensures { result ≡ option_map Syllables.same (find Syllables.is_counted infos.now) }
{
    infos.iter().find(|info| is_counted(info)).map(|info| *info)
}

fn is_mark_if(info: Option<hb_glyph_info_t>) -> bool
    ensures { result ≡ Syllables.is_mark_if info }
{
    match info {
        Some(info) => info._hb_glyph_info_is_unicode_mark(),
        None => false,
    }
}

/// Whether the first item that isn't skipped is a mark.
fn mark_follows(infos: &[hb_glyph_info_t]) -> bool
    ensures { result ≡ Syllables.mark_follows infos.now }
{
    is_mark_if(first_counted(infos))
}

/// Gives a ZWNJ at a place the category of CGJ if a mark follows.
fn skip_at(buffer: &mut hb_buffer_t, i: usize)
    requires { i < length buffer.old.items }
    ensures made { buffer.new ≡ Syllables.skipped_at i buffer.old }
    ensures len { length buffer.new.items ≡ length buffer.old.items }
    ensures limit { limit_of buffer.new ≡ limit_of buffer.old }
{
    let mut info = buffer.infos()[i];
    if info._hb_glyph_info_get_shaper_category() == ZWNJ && mark_follows(&buffer.infos()[i + 1..]) {
        info._hb_glyph_info_set_shaper_category(CGJ);
        buffer.set_info(i, info);
    }
}

/// Gives each ZWNJ before a mark the category of CGJ.
fn skip_joiners(buffer: &mut hb_buffer_t)
    ensures { Made Syllables.joiners_skipped buffer.old buffer.new }
{
    for i in 0..buffer.len() {
        skip_at(buffer, i);
    }
}

/// How many items a list begins with that are skipped.
fn count_skipped(infos: &[hb_glyph_info_t]) -> usize
    ensures { result ≡ Syllables.count_skipped infos.now }
{
    infos.iter().take_while(|info| is_skipped(info)).count()
}

/// Numbers the syllables of a text.
fn number(buffer: &mut hb_buffer_t)
    ensures { Made Syllables.numbered buffer.old buffer.new }
{
    let skipped = count_skipped(buffer.infos());
    number_syllables(universal_machine(), skipped, buffer);
}

/// Finds the syllables of a text, and marks each unsafe to break.
pub fn find_syllables(buffer: &mut hb_buffer_t)
    ensures { Made Syllables.found buffer.old buffer.new }
{
    categorize(buffer);
    skip_joiners(buffer);
    number(buffer);
    mark_syllables(buffer);
}
