//! A text in bands: the characters of each cluster, in the order of the text.
use shape_buffer::{GlyphBuffer, GlyphCluster, ShapeError};
use std::alloc::{AllocError, Global};

/// A character of a text, and its cluster.
#[derive(Clone, Copy)]
pub struct Character {
    pub c: char,
    pub cluster: u32,
}

/// The characters of a cluster: from the first one up to the one before `end`.
#[derive(Clone, Copy)]
pub(crate) struct Band {
    pub cluster: u32,
    pub start: usize,
    pub end: usize,
    /// Whether a line may be cut before them.
    pub cut: bool,
}

/// The clusters of glyphs, by where their texts begin.
fn by_cluster(alloc: Global, glyphs: &GlyphBuffer) -> Result<Vec<GlyphCluster>, ShapeError> {
    let mut clusters = glyphs.clusters(alloc)?;
    clusters.sort_by_key(|cluster| cluster.cluster)?;
    Ok(clusters)
}

/// How many of the clusters, of which so many are passed, begin at a character's or before it.
fn passed(clusters: &[GlyphCluster], so_far: usize, character: Character) -> usize {
    let rest = clusters.get(so_far..).unwrap_or(&[]);
    let more = rest
        .iter()
        .take_while(|cluster| cluster.cluster <= character.cluster)
        .count();
    so_far.saturating_add(more)
}

/// The bands of a text whose clusters don't fall: a character that is no cluster's first belongs
/// to the one before it.
pub(crate) fn bands(
    alloc: Global,
    text: &[Character],
    glyphs: &GlyphBuffer,
) -> Result<Vec<Band>, ShapeError> {
    let clusters = by_cluster(alloc, glyphs)?;
    let clusters = clusters.as_slice();
    let mut bands: Vec<Band> = Vec::new(alloc);
    let mut before = 0;
    for (at, character) in text.iter().enumerate() {
        let now = passed(clusters, before, *character);
        if now != before || bands.is_empty() {
            let cluster = clusters.get(now.saturating_sub(1));
            bands.push(Band {
                cluster: cluster.map_or(character.cluster, |cluster| cluster.cluster),
                start: at,
                end: at,
                cut: cluster.is_some_and(|cluster| !cluster.unsafe_to_break),
            })?;
        }
        before = now;
        if let Some(band) = bands.last_mut() {
            band.end = at.saturating_add(1);
        }
    }
    Ok(bands)
}

/// The characters of the cluster that begins here, none if no band does.
pub(crate) fn characters_of<'a>(
    text: &'a [Character],
    bands: &[Band],
    cluster: u32,
) -> &'a [Character] {
    match bands.binary_search_by_key(&cluster, |band| band.cluster) {
        Ok(at) => match bands.get(at) {
            Some(band) => text.get(band.start..band.end).unwrap_or(&[]),
            None => &[],
        },
        Err(_) => &[],
    }
}
