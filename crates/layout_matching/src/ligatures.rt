//! The ligatures of a set, charged for and sifted in one walk: what they cost, and which is the
//! first one that the glyph after the place doesn't refuse.
ghost use Rattle.std.specs.Prelude.{◌≡◌, Some, None, ◌<◌, ◌≤◌, ◌+◌, ◌^◌, length, false};
ghost use Rattle.std.specs.Option.{IfSome, option_map};
ghost use Rattle.shape_font.specs.Bytes.{u16_of, fitting};
ghost use Rattle.layout_matching.specs.Found.{number_of};
ghost use Rattle.layout_matching.specs.Sifted as Sifting;
ghost use Rattle.layout_matching.specs.Skipping.{nth};
ghost use Rattle.layout_matching.specs.Work;
ghost use Rattle.layout_matching.specs.declared.ligatures.Charge.{Charge as ChargeOf};
ghost use Rattle.layout_matching.specs.declared.ligatures.Part.{Part as PartOf};
ghost use Rattle.layout_matching.specs.declared.ligatures.Sifted.{Sifted as SiftedOf};

use crate::found::number_in;
use crate::glance::{Glance, any_glyph, glance_after, refuses};
use crate::input::seek_input;
use crate::lookup::Lookup;
use crate::nearest::ends_searches;
use crate::passing::is_free_beside;
use crate::rules::{Test, row_of, rule_at, rules};
use crate::seeking::{Seek, fits};
use crate::sets::{part_counts, passed_charged, set_passed};
use crate::tally::{Tally, beside, counted, null_counted};
use crate::work::begun_charged;
use layout_buffer::ItemList;
use layout_tables::lookups::LookupSubtable;
use shape_buffer::hb_glyph_info_t;
use shape_font::bytes::{records, u16_at};

/// A set of ligatures that is counted, and the number of the first one that isn't refused; their
/// count if each is.
#[derive(Clone, Copy)]
pub struct Sifted {
    pub count: Tally,
    pub first: u32,
}

/// A ligature of a set: what is counted with it, and whether the glyph after the place refuses it.
#[derive(Clone, Copy)]
struct Part {
    count: Tally,
    is_out: bool,
}

/// What is left after a subtable of ligatures, the set for the glyph at the place, and the number
/// of its first ligature that isn't refused; their count if each is.
#[derive(Clone, Copy)]
pub struct Charge {
    pub left: usize,
    pub set: Option<usize>,
    pub first: u32,
}

/// What the glyph right after a place says of the second component, where each search ends at it.
#[inline(always)]
fn nearest_glance(lookup: &Lookup<'_>, seek: &Seek, there: &hb_glyph_info_t) -> Glance
    ensures { result ≡ Sifting.nearest_glance lookup.now seek.now there.now }
{
    if fits(lookup, &any_glyph(seek), 0, there) {
        Glance::Only(there.glyph_id)
    } else {
        Glance::Closed
    }
}

/// What the glyph after a place says of the second component of all ligatures. Nearly always it is
/// the one right after it.
#[tactic(auto, using(crate::proofs::NearestLemmas::glance_nearest))]
#[inline(always)]
pub fn second_glance(lookup: &Lookup<'_>, items: &ItemList<'_>, at: usize) -> Glance
    requires { at < length items.now }
    ensures { result ≡ Sifting.second_glance lookup.now items.now at }
{
    let seek = seek_input(lookup, items.at(at), row_of(Test::Glyph, 0, 0, 0));
    // The list can be counted, so the place after one of its own can.
    let count = items.len();
    let next = at + 1;
    if next < count && ends_searches(lookup, items.at(next)) {
        return nearest_glance(lookup, &seek, items.at(next));
    }
    glance_after(lookup, &seek, items, at)
}

/// Whether the ligature has a second component, and the glyph is another one.
#[inline(always)]
pub fn begins_with_another(table: &[u8], second: Glance, ligature: usize) -> bool
    requires { ligature < 2 ^ 37 }
    ensures { result ≡ Sifting.begins_with_another table.now second ligature }
{
    1 < u16_at(table, ligature + 2) && refuses(table, ligature + 4, second)
}

/// Ligature `r` of a set, counted with those before it, and whether the glyph after the place
/// refuses it. Its place and its components are read once for both.
#[tactic(auto, using(crate::proofs::TallyLemmas::part_counted_by))]
#[inline(always)]
fn part_sifted(
    lookup: &Lookup<'_>,
    subtable: LookupSubtable,
    second: Glance,
    set: usize,
    r: u32,
    count: Tally,
) -> Option<Part>
    requires near { subtable.start < 2 ^ 35 }
    requires set { set < 2 ^ 36 }
    requires few { r < 2 ^ 16 }
    ensures count { option_map (λ (p : PartOf). p.count) result
        ≡ Work.part_counted lookup.now subtable set r count }
    ensures out { IfSome result (λ p. p.is_out ≡ Sifting.is_out lookup.now.table.now second set r) }
{
    let Some(ligature) = rule_at(lookup.table, set, r) else {
        return match null_counted(count) {
            Some(count) => Some(Part {
                count,
                is_out: true,
            }),
            None => None,
        };
    };
    match counted(part_counts(lookup, subtable, ligature), count) {
        Some(count) => Some(Part {
            count,
            is_out: begins_with_another(lookup.table, second, ligature),
        }),
        None => None,
    }
}

/// The ligatures of a set, counted and sifted.
#[tactic(auto, using(crate::proofs::LoopLemmas::steps_next, crate::proofs::LoopLemmas::steps_none, crate::proofs::LoopLemmas::steps_end))]
#[inline(always)]
fn sift(
    lookup: &Lookup<'_>,
    subtable: LookupSubtable,
    second: Glance,
    left: usize,
    set: usize,
) -> Option<Sifted>
    requires near { subtable.start < 2 ^ 35 }
    requires set { set < 2 ^ 36 }
    ensures count { option_map (λ (s : SiftedOf). s.count) result
        ≡ Work.set_counted lookup.now subtable left set }
    ensures out { IfSome result (λ s. Sifting.AreOut lookup.now.table.now second set s.first) }
    ensures within { IfSome result (λ s. s.first
        ≤ fitting lookup.now.table.now (u16_of lookup.now.table.now set) (set + 2) 2) }
{
    let many = records(
        lookup.table,
        u32::from(u16_at(lookup.table, set)),
        set + 2,
        2,
    );
    let mut count = beside(left);
    let mut first = many;
    for r in 0..many {
        let Some(part) = part_sifted(lookup, subtable, second, set, r, count) else {
            return None;
        };
        count = part.count;
        if first == many && !part.is_out {
            first = r;
        }
    }
    Some(Sifted { count, first })
}

/// What is left after a glyph without a set.
fn unset(left: usize) -> Charge
    ensures { result ≡ record { left = left; set = None; first = 0 } }
{
    Charge {
        left,
        set: None,
        first: 0,
    }
}

/// What is left after the ligatures for the glyph at a place, which has this number.
#[tactic(auto, using(crate::proofs::SiftedLemmas::ligature_parts, crate::proofs::SiftedLemmas::set_free))]
#[inline(always)]
fn parts_paid(
    lookup: &Lookup<'_>,
    items: &ItemList<'_>,
    at: usize,
    subtable: LookupSubtable,
    number: u32,
    left: usize,
) -> Option<Charge>
    requires near { subtable.start < 2 ^ 35 }
    requires inside { at < length items.now }
    requires kind { subtable.kind ≡ 4 }
    requires substitution { lookup.now.positioning ≡ false }
    requires number { number_of lookup.now.table.now subtable.start (nth items.now at).glyph_id
        ≡ Some number }
    ensures left { option_map (λ (c : ChargeOf). c.left) result
        ≡ Work.parts_charged lookup.now items.now at subtable number left }
    ensures set { IfSome result (λ c. c.set
        ≡ Sifting.set_there lookup.now items.now at subtable.start) }
    ensures out { IfSome result (λ c. IfSome c.set (λ set. Sifting.AreOut lookup.now.table.now
        (Sifting.second_glance lookup.now items.now at) set c.first)) }
    ensures within { IfSome result (λ c. IfSome c.set (λ set. c.first
        ≤ fitting lookup.now.table.now (u16_of lookup.now.table.now set) (set + 2) 2)) }
    ensures near { IfSome result (λ c. IfSome c.set (λ set. set < 2 ^ 36)) }
{
    let Some(set) = rules(lookup.table, subtable.start, 4, number) else {
        return match passed_charged(lookup, false, items, at, beside(left)) {
            Some(left) => Some(unset(left)),
            None => None,
        };
    };
    let second = second_glance(lookup, items, at);
    let Some(sifted) = sift(lookup, subtable, second, left, set) else {
        return None;
    };
    if is_free_beside(lookup, items, at, sifted.count) {
        return Some(Charge {
            left: sifted.count.left,
            set: Some(set),
            first: sifted.first,
        });
    }
    match set_passed(lookup, items, at, subtable, set, sifted.count) {
        Some(left) => Some(Charge {
            left,
            set: Some(set),
            first: sifted.first,
        }),
        None => None,
    }
}

/// What is left after a subtable of ligatures, with the ligatures of it that may stand at the
/// place. It's a constant here that the subtable is of kind 4, so that no test for another kind is
/// left.
#[tactic(auto, using(crate::proofs::SiftedLemmas::ligature_charged))]
#[inline(never)]
pub fn ligatures_paid(
    lookup: &Lookup<'_>,
    items: &ItemList<'_>,
    at: usize,
    left: usize,
    start: usize,
) -> Option<Charge>
    requires near { start < 2 ^ 35 }
    requires inside { at < length items.now }
    requires substitution { lookup.now.positioning ≡ false }
    ensures left { option_map (λ (c : ChargeOf). c.left) result
        ≡ Work.subtable_charged lookup.now items.now at left (record { kind = 4; start = start }) }
    ensures set { IfSome result (λ c. c.set ≡ Sifting.set_there lookup.now items.now at start) }
    ensures out { IfSome result (λ c. IfSome c.set (λ set. Sifting.AreOut lookup.now.table.now
        (Sifting.second_glance lookup.now items.now at) set c.first)) }
    ensures within { IfSome result (λ c. IfSome c.set (λ set. c.first
        ≤ fitting lookup.now.table.now (u16_of lookup.now.table.now set) (set + 2) 2)) }
    ensures near { IfSome result (λ c. IfSome c.set (λ set. set < 2 ^ 36)) }
{
    let subtable = LookupSubtable { kind: 4, start };
    let glyph = items.at(at).glyph_id;
    let Some(number) = number_in(lookup.table, start, glyph) else {
        return Some(unset(left));
    };
    match begun_charged(lookup, items, subtable, left) {
        Some(left) => parts_paid(lookup, items, at, subtable, number, left),
        None => None,
    }
}
