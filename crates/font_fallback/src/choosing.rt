//! Fonts tried on the clusters of a text, until each cluster is found or no font is left.
ghost use Rattle.std.specs.Prelude.{◌≡◌, ◌↔◌, ℕ, ◌<◌, false, length, map, slice_index_or, Err, Ok, Some, None, is_none, IfOk, IfErr};
ghost use Rattle.std.specs.List.{list_any};
ghost use Rattle.font_fallback.specs.Choice.{AreTries, has_by, HasFonts, found_in, font_in, rows_of};

use crate::spans::{Span, spans};
use std::alloc::{AllocError, AllocFailed, Global};
use std::fmt::Display;
use thiserror::Error;

/// A font as it was tried on a text.
#[derive(Drop)]
pub struct Tried<T> {
    /// Whether the font has each cluster, in the order of the text. A cluster past its end is
    /// missed.
    pub has: Vec<bool>,
    /// What the font made of the text, for the caller to use again.
    pub made: T,
}

/// The fonts that are chosen for a text.
#[derive(Drop)]
pub struct Chosen<T> {
    /// The spans of the text, in its order.
    pub spans: Vec<Span>,
    /// What was tried: the fonts from the first of the list on, as many as were needed.
    pub tried: Vec<Tried<T>>,
}

/// Why no fonts are chosen.
#[derive(Drop, Debug, Error)]
#[error_bound(E: Display)]
pub enum FallbackError<E> {
    /// The list has no fonts.
    #[error("the list of fonts is empty")]
    NoFonts,
    /// A growth of memory was refused.
    #[error("out of memory")]
    Memory,
    /// A font couldn't be tried, for this reason.
    #[error("{0}")]
    Refused(E),
}

impl<E> From<AllocError> for FallbackError<E> {
    ghost use Rattle.std.specs.Prelude.{◌≡◌};
    ghost use Rattle.font_fallback.specs.declared.choosing.FallbackError.TheVariants.{Memory};

    ghost from_gives = { λ _ error. error ≡ Memory };

    fn from(_error: AllocError) -> FallbackError<E> {
        FallbackError::Memory
    }
}

impl<T: Drop, E> From<AllocFailed<T>> for FallbackError<E> {
    ghost use Rattle.std.specs.Prelude.{◌≡◌};
    ghost use Rattle.font_fallback.specs.declared.choosing.FallbackError.TheVariants.{Memory};

    ghost from_gives = { λ _ error. error ≡ Memory };

    fn from(_error: AllocFailed<T>) -> FallbackError<E> {
        FallbackError::Memory
    }
}

/// Whether some cluster has no font yet.
fn is_missed(fonts: &[Option<usize>]) -> bool
    ensures { result ≡ list_any is_none fonts.now }
{
    fonts.iter().any(|font| font.is_none())
}

/// Gives each cluster that a font has and that has no font yet this font.
fn give(fonts: &mut [Option<usize>], font: usize, has: &[bool])
    ensures length { length fonts.new ≡ length fonts.old }
    ensures given { (k : ℕ) → k < length fonts.old → slice_index_or fonts.new k None
        ≡ found_in (slice_index_or fonts.old k None) font (has_by has.now k) }
{
    for k in 0..fonts.len() {
        fonts[k] = found(fonts[k], font, has.get(k).copied().unwrap_or(false));
    }
}

/// The font of a cluster, once one more font was tried.
fn found(before: Option<usize>, font: usize, has: bool) -> Option<usize>
    ensures { result ≡ found_in before font has }
{
    match before {
        Some(earlier) => Some(earlier),
        None if has => Some(font),
        None => None,
    }
}

/// The font of each cluster, the first of the list for those that none has.
fn shown(alloc: Global, fonts: &[Option<usize>]) -> Result<Vec<usize>, AllocError>
    ensures { IfOk result (λ shown. shown.items ≡ map font_in fonts.now) }
{
    fonts.iter().map(|font| font.unwrap_or(0)).collect(alloc)
}

/// The fonts for a text of so many clusters, of a list of so many fonts: each cluster gets the
/// first font that has it, and the first of the list if none has. `try_font` tries a font on the
/// text. Fonts are tried in their order, and no more of them than are needed, so a text that the
/// first font has is tried in no other. Neighbours of one font make one span. Refuses with
/// `NoFonts` exactly if there are none, with what `try_font` refuses with, and with `Memory` if a
/// growth was refused.
pub fn choose_fonts<T, E, C>(
    alloc: Global,
    fonts: usize,
    clusters: usize,
    mut try_font: C,
) -> Result<Chosen<T>, FallbackError<E>>
where
    T: Drop,
    E: Drop,
    C: FnMut(usize) -> Result<Tried<T>, E> + Drop,
    requires { C.IsAlwaysCallable try_font }
    ensures no_fonts { (result ≡ Err FallbackError.NoFonts) ↔ (fonts ≡ 0) }
    ensures refused { IfErr result (λ error. (e : E) → error ≡ FallbackError.Refused e
        → (font : ℕ) × (font < fonts)
        × ((now next : C) × C.step now font (Err e) next)) }
    ensures tried { IfOk result (λ chosen. (last : C)
        × AreTries (λ now font one next. C.step now font (Ok one) next) try_font 0 chosen.tried.items last) }
    ensures enough { IfOk result
        (λ chosen. HasFonts (rows_of chosen.tried.items) fonts clusters chosen.spans.items) }
{
    if fonts == 0 {
        return Err(FallbackError::NoFonts);
    }
    let mut found: Vec<Option<usize>> = vec![in alloc; None; clusters]?;
    let mut tried = Vec::new(alloc);
    while tried.len() < fonts && is_missed(&found) {
        let font = tried.len();
        let one = match try_font(font) {
            Ok(one) => one,
            Err(error) => return Err(FallbackError::Refused(error)),
        };
        give(&mut found, font, &one.has);
        tried.push(one)?;
    }
    let shown = shown(alloc, &found)?;
    let spans = spans(alloc, &shown)?;
    Ok(Chosen { spans, tried })
}
