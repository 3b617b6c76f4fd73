//! A text as grapheme clusters, each with what decides its run.
ghost use Rattle.std.specs.Prelude.{◌≡◌, true, drop, IfOk, OnOk};
ghost use Rattle.std.specs.Str.{chars};
ghost use Rattle.unicode_segmentation.specs.Grapheme.{graphemes};
ghost use Rattle.text_items.specs.Clusters;
ghost use Rattle.text_items.specs.Scripts.{with_next};

use crate::items::ItemOptions;
use crate::presentation::{Presentation, presentation_of};
use crate::ranges::{number_by, past_ended};
use crate::scripts::{is_explicit, own_script};
use std::alloc::{AllocError, Global};
use ucd_script::Script;
use unicode_segmentation::UnicodeSegmentation;

/// What all of a run's text has in common.
#[derive(Clone, Copy, Debug)]
pub struct Properties {
    /// The script, or Common if the text has none.
    pub script: Script,
    /// The embedding level: odd if the run is right to left.
    pub level: u8,
    /// Whether the run is of emoji.
    pub presentation: Presentation,
    /// The number of its language, 0 if it has none.
    pub language: u32,
    /// The number of its features, 0 if it has none.
    pub features: u32,
}

/// A grapheme cluster.
#[derive(Clone, Copy, Debug)]
pub(crate) struct Cluster {
    /// Where it begins, in bytes.
    pub start: usize,
    /// Where it ends, in bytes.
    pub end: usize,
    /// Its first character.
    pub first: char,
    /// The script that it has by itself, or Common.
    pub script: Script,
    /// The first script after it, or Common.
    pub next: Script,
    /// The level of its first character.
    pub level: u8,
    /// How it is shown.
    pub presentation: Presentation,
    /// The number of the language where it begins.
    pub language: u32,
    /// The number of the features where it begins.
    pub features: u32,
}

/// A place in a text.
#[derive(Clone, Copy)]
struct Place {
    /// Its offset, in bytes.
    offset: usize,
    /// The levels of the characters before it, all of them if there are fewer.
    levels: usize,
    /// The ranges of languages that ended before it.
    languages: usize,
    /// The ranges of features that ended before it.
    features: usize,
}

/// The level of the character at a place: 0 past the end of the levels.
fn level_at(levels: &[u8], place: usize) -> u8
    ensures { result ≡ Clusters.first_level (drop place levels.now) }
{
    if place < levels.len() {
        levels[place]
    } else {
        0
    }
}

/// The place so many levels further on, or the end of the levels.
fn past_levels(levels: &[u8], place: usize, count: usize) -> usize
    ensures { drop result levels.now ≡ drop count (drop place levels.now) }
{
    if place < levels.len() {
        place + count.min(levels.len() - place)
    } else {
        place
    }
}

/// The first of a cluster's characters.
fn first_of(letters: &[char]) -> char
    ensures { result ≡ Clusters.first_of letters.now }
{
    match letters.first() {
        Some(c) => *c,
        None => ' ',
    }
}

/// The cluster at a place, given its characters and its end.
fn cluster_at(options: &ItemOptions, place: Place, letters: &[char], end: usize) -> Cluster
    ensures { result ≡ Clusters.cluster_by (drop place.levels options.now.levels.now)
        (drop place.languages options.now.languages.now) (drop place.features options.now.features.now)
        place.offset end letters.now }
{
    Cluster {
        start: place.offset,
        end,
        first: first_of(letters),
        script: own_script(letters),
        next: Script::Common,
        level: level_at(options.levels, place.levels),
        presentation: presentation_of(letters),
        language: number_by(options.languages, place.languages, place.offset),
        features: number_by(options.features, place.features, place.offset),
    }
}

/// Reads the characters of a text.
fn read(letters: &mut Vec<char>, text: &str) -> Result<(), AllocError>
    ensures { OnOk result (letters.new.items ≡ chars text.now) }
{
    letters.clear();
    letters.extend(text.chars())
}

/// The clusters of a text, without the scripts after them.
fn read_clusters(
    alloc: Global,
    text: &str,
    options: &ItemOptions,
) -> Result<Vec<Cluster>, AllocError>
    ensures { IfOk result (λ clusters. clusters.items ≡ Clusters.clusters_from options.now.levels.now
        options.now.languages.now options.now.features.now 0 (graphemes true text.now)) }
{
    let mut clusters = Vec::new(alloc);
    let mut letters = Vec::new(alloc);
    let mut place = Place {
        offset: 0,
        levels: 0,
        languages: 0,
        features: 0,
    };
    for piece in text.graphemes(true) {
        read(&mut letters, piece)?;
        let end = place.offset + piece.len();
        clusters.push(cluster_at(options, place, &letters, end))?;
        place = Place {
            offset: end,
            levels: past_levels(options.levels, place.levels, letters.len()),
            languages: past_ended(options.languages, place.languages, end),
            features: past_ended(options.features, place.features, end),
        };
    }
    Ok(clusters)
}

/// Gives each cluster the first script after it.
fn look_ahead(clusters: &mut [Cluster])
    ensures { clusters.new ≡ with_next clusters.old }
{
    let mut next = Script::Common;
    let mut count = clusters.len();
    while count > 0 {
        count -= 1;
        let script = clusters[count].script;
        clusters[count].next = next;
        if is_explicit(script) {
            next = script;
        }
    }
}

/// The clusters of a text.
pub(crate) fn clusters(
    alloc: Global,
    text: &str,
    options: &ItemOptions,
) -> Result<Vec<Cluster>, AllocError>
    ensures { IfOk result (λ clusters. clusters.items ≡ Clusters.clusters_of options.now.levels.now
        options.now.languages.now options.now.features.now text.now) }
{
    let mut clusters = read_clusters(alloc, text, options)?;
    look_ahead(&mut clusters);
    Ok(clusters)
}
