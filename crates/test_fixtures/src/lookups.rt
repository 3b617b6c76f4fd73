//! Rules of substitution, run over a buffer.
ghost use Rattle.std.specs.Prelude.{◌≡◌, ◌++◌, ◌+◌, ◌≤◌, true, length, OnOk};
ghost use Rattle.shape_buffer.specs.Outcome.{IsWithinLimit, Made, Outcome, step};
ghost use Rattle.shape_buffer.specs.Walks.{items_mapped};
ghost use Rattle.test_fixtures.specs.Rules;

use crate::rules::{Ligature, Multiple, Single, Stage};
use shape_buffer::buffer::{ShapeError, hb_buffer_t, hb_glyph_info_t, hb_mask_t};
use shape_buffer::walks::update_items;
use std::alloc::{AllocError, Global};

/// Whether a feature is on for an item of a glyph.
fn takes(feature: hb_mask_t, glyph: u32, info: &hb_glyph_info_t) -> bool
    ensures { result ≡ Rules.takes feature glyph info.now }
{
    (feature == 0 || info.mask & feature != 0) && info.glyph_id == glyph
}

/// The item with a glyph that a lookup has made.
fn with_glyph(glyph: u32, info: &hb_glyph_info_t) -> hb_glyph_info_t
    ensures { result ≡ Rules.with_glyph glyph info.now }
{
    let mut info = *info;
    info.glyph_id = glyph;
    info._hb_glyph_info_set_substituted(true);
    info
}

fn added(number: u32, info: &hb_glyph_info_t) -> hb_glyph_info_t
    ensures { result ≡ Rules.added number info.now }
{
    with_glyph(info.glyph_id.wrapping_add(number), info)
}

fn one_for_one(rule: &Single, info: &hb_glyph_info_t) -> hb_glyph_info_t
    ensures { result ≡ Rules.one_for_one rule.now info.now }
{
    if takes(rule.feature, rule.from, info) {
        with_glyph(rule.to, info)
    } else {
        *info
    }
}

/// Appends what a rule puts in place of an item.
fn append(
    infos: &mut Vec<hb_glyph_info_t>,
    rule: &Multiple,
    info: &hb_glyph_info_t,
) -> Result<(), AllocError>
    ensures { OnOk result (infos.new.items
        ≡ infos.old.items ++ Rules.two_for_one rule.now info.now) }
{
    if takes(rule.feature, rule.from, info) {
        infos.push(with_glyph(rule.first, info))?;
        infos.push(with_glyph(rule.second, info))?;
    } else {
        infos.push(*info)?;
    }
    Ok(())
}

/// Puts two glyphs in place of each that the rule takes.
fn multiply(alloc: Global, rule: &Multiple, buffer: &mut hb_buffer_t) -> Result<(), ShapeError>
    requires { IsWithinLimit buffer.old }
    ensures { Outcome (step (Rules.multiplied rule.now)) buffer.old buffer.new result }
{
    let mut infos = Vec::new(alloc);
    for info in buffer.infos() {
        append(&mut infos, rule, info)?;
    }
    buffer.replace_infos(infos)
}

/// Whether a list begins with two items that the rule takes.
fn begins_with_pair(rule: &Ligature, infos: &[hb_glyph_info_t]) -> bool
    ensures value { result ≡ Rules.begins_with_pair rule.now infos.now }
    ensures two { result ≡ true → 2 ≤ length infos.now }
{
    match infos {
        [first, second, ..] => {
            takes(rule.feature, rule.first, first) && takes(rule.feature, rule.second, second)
        }
        _ => false,
    }
}

/// Makes one item of the two from `start` up to `end`.
fn make_one(rule: &Ligature, start: usize, end: usize, buffer: &mut hb_buffer_t)
    requires two { end ≡ start + 2 }
    requires within { end ≤ length buffer.old.items }
    ensures { Made (Rules.made_one rule.now start) buffer.old buffer.new }
{
    buffer.merge_clusters(start, end);
    let info = with_glyph(rule.into, &buffer.infos()[start]);
    buffer.set_info(start, info);
    buffer.remove(end - 1);
}

/// Makes one item of those at `i` and after it, if the rule takes them.
fn ligate_at(rule: &Ligature, i: usize, buffer: &mut hb_buffer_t)
    ensures { Made (Rules.ligated_at rule.now i) buffer.old buffer.new }
{
    if i < buffer.len() && begins_with_pair(rule, &buffer.infos()[i..]) {
        make_one(rule, i, i + 2, buffer);
    }
}

/// Makes one item of each two that the rule takes, from left to right.
fn ligate(rule: &Ligature, buffer: &mut hb_buffer_t)
    ensures { Made (Rules.ligated rule.now) buffer.old buffer.new }
{
    for i in 0..buffer.len() {
        ligate_at(rule, i, buffer);
    }
}

/// Runs a stage.
pub(crate) fn run_stage(
    alloc: Global,
    stage: &Stage,
    buffer: &mut hb_buffer_t,
) -> Result<(), ShapeError>
    requires { IsWithinLimit buffer.old }
    ensures { Outcome (step (Rules.stage_made stage.now)) buffer.old buffer.new result }
{
    match stage {
        Stage::Add(number) => {
            update_items(buffer, |info| added(*number, info));
            Ok(())
        }
        Stage::Single(rule) => {
            update_items(buffer, |info| one_for_one(rule, info));
            Ok(())
        }
        Stage::Multiple(rule) => multiply(alloc, rule, buffer),
        Stage::Ligature(rule) => {
            ligate(rule, buffer);
            Ok(())
        }
    }
}
