//! The script and the language system that are taken for a text.
ghost use Rattle.std.specs.Prelude.{◌≡◌, ◌≤◌, length, take, string_bytes};
ghost use Rattle.std.specs.Option.{option_map};
ghost use Rattle.shape_buffer.specs.MapBuilder;
ghost use Rattle.layout_map.specs.Chosen.{chosen};
ghost use Rattle.opentype_layout.specs.Chosen;

use layout_map::chosen::ChosenTable;
use layout_tables::scripts;
use opentype_tags::{language_tags, script_tags};
use shape_buffer::interfaces::{TableIndex, hb_ot_map_builder_t};
use shape_buffer::{Language, Script, hb_tag_t};

/// Tag number `i` as a number; 0 past the last.
fn number_at(tags: &[hb_tag_t], i: usize) -> u32
    ensures { result ≡ Chosen.number_at tags.now i }
{
    match tags.get(i) {
        Some(tag) => tag.0,
        None => 0,
    }
}

/// At most three tags as numbers; 0 past the last.
fn numbers(tags: &[hb_tag_t]) -> [u32; 3]
    requires { length tags.now ≤ 3 }
    ensures { take (length tags.now) result ≡ Chosen.numbers_of tags.now }
{
    [number_at(tags, 0), number_at(tags, 1), number_at(tags, 2)]
}

/// A tag as a number.
fn number_of(tag: Option<hb_tag_t>) -> Option<u32>
    ensures { result ≡ option_map (λ tag. tag.0) tag }
{
    match tag {
        Some(tag) => Some(tag.0),
        None => None,
    }
}

/// The script of a table of lookups that is taken for a text: the first of its script's tags that
/// the table has, or one that stands for all others.
pub fn script_in(
    table: &[u8],
    script: Option<Script>,
    language: Option<&Language>,
) -> Option<hb_tag_t>
    ensures { result ≡ Chosen.script_in table.now script
        (option_map (λ l. string_bytes l.now.0) language.entry) }
{
    let list = script_tags(script, language);
    let tags = list.as_slice();
    match scripts::chosen_script(table, &numbers(tags)[..tags.len()]) {
        Some(tag) => Some(hb_tag_t(tag)),
        None => None,
    }
}

/// A table of lookups with the language system that is taken for these tags, within the script with
/// a tag.
fn chosen_by<'a>(
    table: &'a [u8],
    coordinates: &[i32],
    script: Option<u32>,
    tags: &[hb_tag_t],
) -> ChosenTable<'a>
    requires { length tags.now ≤ 3 }
    ensures { result ≡ chosen table.now coordinates.now script (Chosen.numbers_of tags.now) }
{
    ChosenTable::new(table, coordinates, script, &numbers(tags)[..tags.len()])
}

/// A table of lookups with the language system that is taken for a text in this language, within a
/// script of the table.
fn chosen_in<'a>(
    table: &'a [u8],
    coordinates: &[i32],
    script: Option<hb_tag_t>,
    language: Option<&Language>,
) -> ChosenTable<'a>
    ensures { result ≡ Chosen.chosen_in table.now coordinates.now script
        (option_map (λ l. string_bytes l.now.0) language.entry) }
{
    let list = language_tags(language);
    chosen_by(table, coordinates, number_of(script), list.as_slice())
}

/// A table of lookups with what is taken in it for the texts of a plan, at the coordinates of the
/// font.
pub fn chosen_for<'a>(
    table: &'a [u8],
    coordinates: &[i32],
    index: TableIndex,
    builder: &hb_ot_map_builder_t,
) -> ChosenTable<'a>
    ensures { result ≡ Chosen.chosen_in table.now coordinates.now (MapBuilder.chosen_script builder.now index)
        builder.now.language }
{
    chosen_in(
        table,
        coordinates,
        builder.chosen_script(index),
        builder.language(),
    )
}
