//! Calls of a run that can't be refused take no memory, and a run over an empty text takes none at
//! all. Of two tests that begin alike the second one makes such calls besides; the gate's script
//! counts the growths of both, and the two numbers must be equal.

use crate::cases::{Settings, UNSET};
use crate::comparing::{assert_same, assert_that};
use crate::faces::face_of;
use crate::runs::{glyphs_under, meets_premises, normalise, plan_for, prepare, shape_in_place};
use crate::texts::{buffer_of, items_of};
use shape_buffer::buffer::{
    BufferFlags, Direction, GlyphId, Script, UnicodeBuffer, hb_buffer_t, hb_tag_t,
};
use shape_buffer::interfaces::{MapFace, NoLookups, TableIndex, hb_ot_map_builder_t};
use shape_pipeline::ot_shape_plan::hb_ot_shape_plan_t;
use shape_pipeline::ot_shaper::{DEFAULT_SHAPER, Decomposed, Preferring, hb_default_shaper_t};
use shape_plan::shaping_types::TypesOf;
use shape_prepare::graphemes::set_unicode_props;
use shape_unicode::UnicodeDatabase;
use std::process::Abort;
use test_fixtures::{PLAIN_FACE, TestFace, TestLayout};

mod steps;

/// A run without lookups by a shaper.
type Run<S> = TypesOf<UnicodeDatabase, MapFace, NoLookups, S>;

/// A run by the default shaper.
type Plain = Run<hb_default_shaper_t>;

/// One by a shaper that decomposes fully.
type Full = Run<Preferring<Decomposed>>;

/// One with lookups for fractions.
type Dividing = TypesOf<UnicodeDatabase, TestFace<'static>, TestLayout, hb_default_shaper_t>;

/// A plan without lookups by a shaper.
type Plan<'a, S> = hb_ot_shape_plan_t<'a, S, (), ()>;

/// One by the default shaper.
type PlainPlan<'a> = Plan<'a, hb_default_shaper_t>;

/// Letters with marks above and below, digits about a slash, a bracket, Hebrew with a point,
/// joiners, a variation selector, a soft hyphen, and a space without a glyph.
const TEXT: &str = "a 0301 0323 1 2044 2 ( 05D0 05B8 200D FE00 00AD 2003 034F b 0301";

/// A text that splits, with two marks in an order of their own, all of whose characters the face
/// has.
const SPELLED: &str = "00E1 0323 a 0301";

/// A face with boxes for a letter and two marks.
const BOXED: Settings<'static> = Settings {
    face: "a=1(600,0,700,600,-700) 0301=2(200,50,800,200,-150) 0323=3(200,50,-50,200,-150) 0020=4(250)",
    ..UNSET
};

/// A face with lookups for fractions.
const DIVIDING: TestFace<'static> = TestFace {
    fractions: true,
    ..PLAIN_FACE
};

/// Sets what a run depends on, and begins it.
fn set_and_enter(buffer: &mut hb_buffer_t) {
    buffer.set_direction(Direction::LeftToRight);
    buffer.set_script(Some(Script(hb_tag_t::from_bytes(b"Hebr"))));
    buffer.set_flags(BufferFlags::REMOVE_DEFAULT_IGNORABLES);
    buffer.set_not_found_variation_selector_glyph(Some(GlyphId(4)));
    buffer.enter();
}

/// The characters in a run, each in a cluster of its own. The lists have room for so many items and
/// no more, so that a growth by one is seen.
fn entered(rt: &(impl Abort + AllocGlobal), words: &str) -> hb_buffer_t {
    let mut buffer = buffer_of(rt, items_of(rt, words));
    set_and_enter(&mut buffer);
    buffer
}

/// Compares all that is read of a plan by a face without tables, an engine without masks, and a
/// shaper with both preferences for marks; and makes the calls that say something of a plan to a
/// prover alone.
fn assert_plain(rt: &impl Abort, plan: &PlainPlan<'_>) {
    plan.masks_are_features();
    plan.positions_by_one_table();
    let () = *plan.ot_map();
    assert_same(rt, plan.direction(), Direction::LeftToRight);
    assert_that(
        rt,
        plan.user_features().is_empty() & plan.shaper().is_some(),
    );
    let masks = plan.frac_mask() | plan.numr_mask() | plan.dnom_mask() | plan.rtlm_mask();
    assert_same(rt, masks | plan.kern_mask() | plan.trak_mask(), 0);
    assert_that(rt, !(plan.script().is_some() | plan.data().is_some()));
    let positioned = plan.apply_gpos() | plan.apply_kerx() | plan.apply_kern() | plan.apply_trak();
    assert_that(rt, !(positioned | plan.apply_morx()));
    let found = plan.has_frac() | plan.has_vert() | plan.has_gpos_mark();
    assert_that(rt, !(found | plan.requested_kerning()));
    let instead = plan.fallback_glyph_classes() & plan.apply_fallback_kern() & plan.zero_marks();
    assert_that(rt, instead & plan.fallback_mark_positioning());
    assert_that(rt, plan.adjust_mark_positioning_when_zeroing());
}

/// What a builder of requests says once it is set to be no simple one: how many requests it has,
/// whether it is simple, and whether it chose a script.
fn without_requests(rt: &(impl Abort + AllocGlobal), face: &MapFace) -> (usize, bool, bool) {
    let mut builder = hb_ot_map_builder_t::new::<MapFace, NoLookups>(rt.alloc(), face, None, None);
    builder.set_simple(false);
    let chosen = builder.chosen_script(TableIndex::GSUB);
    (
        builder.requests().len(),
        builder.is_simple(),
        chosen.is_some(),
    )
}

/// Whether a plan fits an empty text.
fn fits_nothing(rt: &(impl Abort + AllocGlobal), plan: &PlainPlan<'_>) -> bool {
    let mut nothing = UnicodeBuffer::new(rt.alloc());
    nothing.guess_segment_properties::<UnicodeDatabase>();
    plan.fits::<UnicodeDatabase>(&nothing)
}

/// Asks plans, a builder of requests, and whether a text meets the premises of canonical form: it
/// misses the first of them in the default mode, and meets all in the one that decomposes fully.
fn ask(
    rt: &(impl Abort + AllocGlobal),
    (plain, full): (&PlainPlan<'_>, &Plan<'_, Preferring<Decomposed>>),
    face: &MapFace,
    spelled: &mut hb_buffer_t,
) {
    assert_that(rt, fits_nothing(rt, plain));
    assert_plain(rt, plain);
    assert_same(rt, without_requests(rt, face), (0, false, false));
    set_unicode_props::<UnicodeDatabase>(spelled);
    assert_that(rt, !meets_premises::<Plain>(plain, face, spelled));
    assert_that(rt, meets_premises::<Full>(full, face, spelled));
}

/// Normalises, shapes and prepares a buffer without items, and shapes a text without any by the
/// entry.
fn shape_nothing(rt: &(impl Abort + AllocGlobal), plan: &PlainPlan<'_>, face: &MapFace) {
    let mut list = hb_buffer_t::new(rt.alloc());
    list.set_direction(Direction::LeftToRight);
    normalise::<Plain>(rt, plan, face, &mut list);
    shape_in_place::<Plain>(rt, plan, face, &mut list);
    prepare::<Plain>(rt, plan, face, &mut list);
    let text = UnicodeBuffer::new(rt.alloc());
    let glyphs = glyphs_under::<Plain>(rt, plan, face, text).expect(rt, "error");
    assert_same(rt, glyphs.len(), 0);
}

/// What a test adds to the beginning.
#[derive(Clone, Copy)]
enum Besides {
    Nothing,
    Steps,
    EmptyTexts,
}

/// Makes the texts, faces and plans that each test begins with, and does what the test adds. Plans
/// run to the right; there are two for the first face, by the default shaper and by one that
/// decomposes fully, and one for the face that divides, by the default shaper.
fn begin(rt: &(impl Abort + AllocGlobal), besides: Besides) {
    let (mut text, mut spelled) = (entered(rt, TEXT), entered(rt, SPELLED));
    assert_same(rt, (text.len(), spelled.len()), (16, 4));
    let face = face_of(rt, &BOXED);
    let (decomposing, rightward) = (Preferring::new(), (Direction::LeftToRight, None));
    let plain = plan_for::<Plain>(rt, (&face, &DEFAULT_SHAPER), rightward);
    let full = plan_for::<Full>(rt, (&face, &decomposing), rightward);
    let dividing = plan_for::<Dividing>(rt, (&DIVIDING, &DEFAULT_SHAPER), rightward);
    match besides {
        Besides::Nothing => {}
        Besides::Steps => {
            ask(rt, (&plain, &full), &face, &mut spelled);
            steps::make_all::<_, Plain, Dividing>(rt, (&plain, &dividing), &face, &mut text);
        }
        Besides::EmptyTexts => shape_nothing(rt, &plain, &face),
    }
}

#[test]
fn text_is_begun(rt: HostRuntime) {
    begin(&rt, Besides::Nothing);
}

#[test]
fn steps_are_made(rt: HostRuntime) {
    begin(&rt, Besides::Steps);
}

#[test]
fn empty_text_is_shaped(rt: HostRuntime) {
    begin(&rt, Besides::EmptyTexts);
}
