//! The expansion of one character along its chain.
//!
//! In the modes for composed diacritics a character without marks takes the shortest expansion that
//! the face has glyphs for, so itself if it can: whoever drew a glyph for the whole drew it as it
//! should look, and most text then stays as it is. With marks beside it the longest is taken, since
//! each part that is a mark has a place among them.
//!
//! A syllable of Hangul splits like any other character: LVT into LV and T, LV into L and V (The
//! Unicode Standard, section 3.12). So a face that lacks it shows its jamo, and those are never
//! composed again: they aren't marks, and faces don't mix them with whole syllables.
//!
//! The chain is walked in a loop that keeps the second parts in a list, so its depth is bounded by
//! memory alone and the length of the expansion is known before any of it is emitted. Each part is
//! kept with its glyph, so that the face is asked once about it.
ghost use Rattle.std.specs.Prelude.{◌≡◌, [], ◌∷◌, ◌++◌, reverse, take, map, IfOk, IsTrue, Ok};
ghost use Rattle.std.specs.Prelude.{if◌then◌else◌, Some, None, true, false};
ghost use Rattle.std.specs.List.{list_all};
ghost use Rattle.std.specs.Option.{option_map};
ghost use Rattle.canonical_form.specs.Chain.{kept_part};
ghost use Rattle.canonical_form.specs.Expansion.{chosen_expansion};
ghost use Rattle.shape_plan.specs.Plan.{hooks_of};
ghost use Rattle.shape_plan.specs.Rules.{decompositions, has_glyph};
ghost use Rattle.shape_normalize.specs.Recast.{mapped_char};

use crate::ot_shape_normalize::recast::{MappedChar, mapped};
use shape_buffer::interfaces::{hb_font_t, hb_ot_layout_t, hb_unicode_funcs_t};
use shape_plan::ot_shaper::hb_ot_shaper_t;
use shape_plan::shaping_types::{Meaning, PlanOf, ShapingTypes};
use std::alloc::{AllocError, Global};

/// What a character becomes: `first`, and after it `seconds` from the last to the first. One of
/// these serves the whole text, so that the second parts of all its characters take memory once.
#[derive(Drop)]
pub(crate) struct Expansion {
    pub(crate) first: MappedChar,
    pub(crate) seconds: Vec<MappedChar>,
}

/// The split of a character: the hook's if it is given and the plan uses the shaper, else
/// Unicode's.
pub(crate) fn split_of<T: ShapingTypes>(
    plan: &PlanOf<'_, T>,
    face: &T::Face,
    c: char,
) -> Option<(char, char)>
    ensures { result ≡ (⟦<T as Meaning>⟧.rules plan.now face.now).split c }
{
    match plan.shaper() {
        Some(shaper) if T::Shaper::HAS_DECOMPOSE => shaper.decompose(plan, face, c),
        _ => T::Unicode::decompose(c),
    }
}

/// The split of a point of the chain of `c`, whose own split is known: it isn't sought again.
fn split_after<T: ShapingTypes>(
    plan: &PlanOf<'_, T>,
    face: &T::Face,
    c: char,
    split: (char, char),
    point: char,
) -> Option<(char, char)>
    requires { (⟦<T as Meaning>⟧.rules plan.now face.now).split c ≡ Some split }
    ensures { result ≡ (⟦<T as Meaning>⟧.rules plan.now face.now).split point }
{
    if point == c {
        return Some(split);
    }
    split_of::<T>(plan, face, point)
}

/// Keeps a second part, unless it is U+0000, and says whether the face has a glyph for it.
fn keep_second<F: hb_font_t>(
    face: &F,
    b: char,
    seconds: &mut Vec<MappedChar>,
) -> Result<bool, AllocError>
    ensures test { IfOk result (λ t. t
        ≡ list_all (has_glyph (F.face face.now).nominal_glyph) (kept_part b)) }
    ensures kept { result ≡ Ok true → seconds.new.items
        ≡ seconds.old.items ++ map (mapped_char (F.face face.now).nominal_glyph) (kept_part b) }
    ensures same { result ≡ Ok false → seconds.new.items ≡ seconds.old.items }
{
    if b == '\0' {
        return Ok(true);
    }
    let Some(part) = mapped(face, b) else {
        return Ok(false);
    };
    seconds.push(part)?;
    Ok(true)
}

/// Walks along the chain of a character and keeps its second parts. Returns the last point that has
/// a glyph and after which every second part has one, and how many these are; if the shortest
/// expansion is asked for, of a character without a glyph, the first such point. The first split is
/// known.
fn walk_chain<T: ShapingTypes>(
    plan: &PlanOf<'_, T>,
    face: &T::Face,
    c: char,
    split: (char, char),
    shortest: bool,
    seconds: &mut Vec<MappedChar>,
) -> Result<Option<(MappedChar, usize)>, AllocError>
    requires empty { seconds.old.items ≡ [] }
    requires split { (⟦<T as Meaning>⟧.rules plan.now face.now).split c ≡ Some split }
    requires lacking { IsTrue shortest → has_glyph (T.Face.face face.now).nominal_glyph c ≡ false }
    ensures { IfOk result (λ found. option_map
        (λ f. f.0 ∷ reverse (take f.1 seconds.new.items)) found
        ≡ option_map (map (mapped_char (T.Face.face face.now).nominal_glyph))
        (chosen_expansion (decompositions (⟦<T as Meaning>⟧.rules plan.now face.now))
        (has_glyph (T.Face.face face.now).nominal_glyph) shortest c)) }
{
    let mut found = None;
    let mut point = c;
    'chain: while let Some((a, b)) = split_after::<T>(plan, face, c, split, point) {
        if !keep_second(face, b, seconds)? {
            return Ok(found);
        }
        point = a;
        if let Some(part) = mapped(face, a) {
            found = Some((part, seconds.len()));
            if shortest {
                return Ok(found);
            }
        }
    }
    Ok(found)
}

impl Expansion {
    /// Room for expansions. Takes no memory.
    pub(crate) fn new(alloc: Global) -> Self {
        Expansion {
            first: MappedChar { c: '\0', glyph: 0 },
            seconds: Vec::new(alloc),
        }
    }
}

/// Keeps the supported expansion of greatest length, or the one of least length if `shortest`
/// holds, which it may for a character without a glyph alone. Says whether one is supported. Most
/// characters don't split, so that is asked first.
pub(crate) fn decompose<T: ShapingTypes>(
    plan: &PlanOf<'_, T>,
    face: &T::Face,
    c: char,
    shortest: bool,
    expansion: &mut Expansion,
) -> Result<bool, AllocError>
    requires { IsTrue shortest → has_glyph (T.Face.face face.now).nominal_glyph c ≡ false }
    ensures { IfOk result (λ found. (if found
        then Some (expansion.new.first ∷ reverse expansion.new.seconds.items) else None)
        ≡ option_map (map (mapped_char (T.Face.face face.now).nominal_glyph))
        (chosen_expansion (decompositions (⟦<T as Meaning>⟧.rules plan.now face.now))
        (has_glyph (T.Face.face face.now).nominal_glyph) shortest c)) }
{
    match split_of::<T>(plan, face, c) {
        Some(split) => keep_expansion::<T>(plan, face, c, split, shortest, expansion),
        None => Ok(false),
    }
}

/// Decomposes by the walk along the chain. A call of its own, so that a character that doesn't
/// split is not charged for what the walk keeps.
#[inline(never)]
fn keep_expansion<T: ShapingTypes>(
    plan: &PlanOf<'_, T>,
    face: &T::Face,
    c: char,
    split: (char, char),
    shortest: bool,
    expansion: &mut Expansion,
) -> Result<bool, AllocError>
    requires split { (⟦<T as Meaning>⟧.rules plan.now face.now).split c ≡ Some split }
    requires lacking { IsTrue shortest → has_glyph (T.Face.face face.now).nominal_glyph c ≡ false }
    ensures { IfOk result (λ found. (if found
        then Some (expansion.new.first ∷ reverse expansion.new.seconds.items) else None)
        ≡ option_map (map (mapped_char (T.Face.face face.now).nominal_glyph))
        (chosen_expansion (decompositions (⟦<T as Meaning>⟧.rules plan.now face.now))
        (has_glyph (T.Face.face face.now).nominal_glyph) shortest c)) }
{
    expansion.seconds.clear();
    let walked = walk_chain::<T>(plan, face, c, split, shortest, &mut expansion.seconds)?;
    let Some((first, depth)) = walked else {
        return Ok(false);
    };
    expansion.seconds.truncate(depth);
    expansion.first = first;
    Ok(true)
}
