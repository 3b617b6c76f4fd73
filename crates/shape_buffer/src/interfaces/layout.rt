//! What shaping asks of a layout engine.
ghost use Rattle.std.specs.Prelude.{◌≡◌, MatchResult, string_bytes};
ghost use Rattle.std.specs.Option.{option_map};
ghost use Rattle.shape_buffer.specs.Layout.{LayoutMeaning, MapMeaning, LookupMeaning, LawfulMasks};
ghost use Rattle.shape_buffer.specs.Layout.{LawfulLookups};
ghost use Rattle.shape_buffer.specs.Outcome.{IsWithinLimit, Made, Outcome, step};

use crate::buffer::{Feature, Language, Script, ShapeError, hb_buffer_t, hb_mask_t, hb_tag_t};
use crate::interfaces::map_builder::hb_ot_map_builder_t;
use crate::interfaces::map_request::TableIndex;
use std::alloc::Global;

/// The lookups of faces of type `F`. Its functions have no receiver.
///
/// A call that changes a buffer stands for its meaning, a function from buffer to buffer; what it
/// may be depends on the map and the face. A call that returns a `Result` refuses with `Length` if
/// the list that it would leave passes the buffer's limit, and with `Memory` if a growth was
/// refused; nothing is said of the buffer then. No other call is refused, and none of these makes
/// the list longer.
pub trait hb_ot_layout_t<F> {
    /// What the requests of a plan are compiled to.
    type Map: Drop;

    /// What the engine returns of a face.
    ghost layout: { F → LayoutMeaning Self.Map };

    /// What it returns of compiled requests.
    ghost masks: { Self.Map → MapMeaning };

    /// What its lookups make of a buffer.
    ghost lookups: { Self.Map → F → LookupMeaning };

    /// The script of a table of lookups that the engine takes for a text of this script and
    /// language.
    fn chosen_script(
        face: &F,
        script: Option<Script>,
        language: Option<&Language>,
        table: TableIndex,
    ) -> Option<hb_tag_t>
        ensures { result ≡ (layout face.now).chosen_script script
            (option_map (λ l. string_bytes l.now.0) language.entry) table };

    /// Compiles requests. Refuses with `Memory` alone, if a growth was refused.
    fn compile(
        alloc: Global,
        face: &F,
        builder: &hb_ot_map_builder_t,
    ) -> Result<Self::Map, ShapeError>
        ensures { MatchResult result
            (λ map. map ≡ (layout face.now).compiled builder.now) (λ e. e ≡ ShapeError.Memory) };

    /// Whether the face has classes of glyphs (OpenType, GDEF).
    fn has_glyph_classes(face: &F) -> bool
        ensures { result ≡ (layout face.now).has_glyph_classes };

    /// Whether the face has a table of kerning (OpenType, `kern`).
    fn has_kerning(face: &F) -> bool
        ensures { result ≡ (layout face.now).has_kerning };

    /// Whether that table has a state machine.
    fn has_machine_kerning(face: &F) -> bool
        ensures { result ≡ (layout face.now).has_machine_kerning };

    /// Whether that table moves glyphs across the line.
    fn has_cross_kerning(face: &F) -> bool
        ensures { result ≡ (layout face.now).has_cross_kerning };

    /// The mask of the features that are on for every item.
    fn global_mask(map: &Self::Map) -> hb_mask_t
        ensures { result ≡ (masks map.now).global_mask };

    /// The mask that switches a feature on with value 1; 0 if the feature has none.
    fn get_1_mask(map: &Self::Map, tag: hb_tag_t) -> hb_mask_t
        ensures { result ≡ (masks map.now).one_mask tag };

    /// The bits of a mask that hold a feature's value, and how far the value is shifted there.
    fn get_mask(map: &Self::Map, tag: hb_tag_t) -> (hb_mask_t, u32)
        ensures { result ≡ (masks map.now).mask tag };

    /// The index of a feature in the list of a table, if the table has it.
    fn get_feature_index(map: &Self::Map, table: TableIndex, tag: hb_tag_t) -> Option<u16>
        ensures { result ≡ (masks map.now).feature_index table tag };

    /// Whether a lookup of the stage of a feature of `GSUB` would substitute exactly these glyphs,
    /// if they stood alone; with `zero_context` lookups that look at what stands around don't
    /// count.
    fn would_substitute(
        map: &Self::Map,
        face: &F,
        tag: hb_tag_t,
        glyphs: &[u32],
        zero_context: bool,
    ) -> bool
        ensures { result ≡ (lookups map.now face.now).would_substitute tag glyphs.now zero_context };

    /// Prepares a buffer for substitution.
    fn substitute_start(face: &F, buffer: &mut hb_buffer_t)
        ensures { (map : Self.Map)
            → Made (lookups map face.now).substitute_start buffer.old buffer.new };

    /// How many stages substitution has, with a pause after each.
    fn stages(map: &Self::Map) -> usize
        ensures { result ≡ (masks map.now).stages };

    /// Runs the stage `i` of substitution, from 0 on.
    fn substitute_stage(
        alloc: Global,
        map: &Self::Map,
        i: usize,
        face: &F,
        buffer: &mut hb_buffer_t,
    ) -> Result<(), ShapeError>
        requires { IsWithinLimit buffer.old }
        ensures { Outcome (step ((lookups map.now face.now).stage i))
            buffer.old buffer.new result };

    /// The number of the pause after stage `i`, if it has one.
    fn pause_after(map: &Self::Map, i: usize) -> Option<u32>
        ensures { result ≡ (masks map.now).pause_after i };

    /// Substitutes by the table `morx` in place of the stages.
    fn aat_substitute(
        alloc: Global,
        map: &Self::Map,
        user_features: &[Feature],
        face: &F,
        buffer: &mut hb_buffer_t,
    ) -> Result<(), ShapeError>
        requires { IsWithinLimit buffer.old }
        ensures { Outcome (step ((lookups map.now face.now).aat_substitute user_features.now))
            buffer.old buffer.new result };

    /// Takes out the glyphs that `morx` has deleted.
    fn aat_remove_deleted(buffer: &mut hb_buffer_t)
        ensures { (map : Self.Map) (face : F)
            → Made (lookups map face).aat_remove_deleted buffer.old buffer.new };

    /// Takes the width from the glyphs that `morx` has deleted.
    fn aat_zero_width_deleted(buffer: &mut hb_buffer_t)
        ensures { (map : Self.Map) (face : F)
            → Made (lookups map face).aat_zero_width_deleted buffer.old buffer.new };

    /// Prepares a buffer for positioning.
    fn position_start(face: &F, buffer: &mut hb_buffer_t)
        ensures { (map : Self.Map)
            → Made (lookups map face.now).position_start buffer.old buffer.new };

    /// Positions by the table `GPOS`.
    fn position(
        alloc: Global,
        map: &Self::Map,
        face: &F,
        buffer: &mut hb_buffer_t,
    ) -> Result<(), ShapeError>
        requires { IsWithinLimit buffer.old }
        ensures { Outcome (step (lookups map.now face.now).position) buffer.old buffer.new result };

    /// Finishes the advances of glyphs.
    fn position_finish_advances(face: &F, buffer: &mut hb_buffer_t)
        ensures { (map : Self.Map)
            → Made (lookups map face.now).position_finish_advances buffer.old buffer.new };

    /// Finishes the offsets of glyphs.
    fn position_finish_offsets(face: &F, buffer: &mut hb_buffer_t)
        ensures { (map : Self.Map)
            → Made (lookups map face.now).position_finish_offsets buffer.old buffer.new };

    /// Positions by the table `kerx`.
    fn aat_position(
        alloc: Global,
        map: &Self::Map,
        kern_mask: hb_mask_t,
        face: &F,
        buffer: &mut hb_buffer_t,
    ) -> Result<(), ShapeError>
        requires { IsWithinLimit buffer.old }
        ensures { Outcome (step ((lookups map.now face.now).aat_position kern_mask))
            buffer.old buffer.new result };

    /// Positions by the table `kern`.
    fn kern(
        alloc: Global,
        kern_mask: hb_mask_t,
        face: &F,
        buffer: &mut hb_buffer_t,
    ) -> Result<(), ShapeError>
        requires { IsWithinLimit buffer.old }
        ensures { (map : Self.Map)
            → Outcome (step ((lookups map face.now).kern kern_mask)) buffer.old buffer.new result };

    /// Makes glyphs stand wider or closer by the table `trak`.
    fn aat_track(trak_mask: hb_mask_t, face: &F, buffer: &mut hb_buffer_t)
        ensures { (map : Self.Map)
            → Made ((lookups map face.now).aat_track trak_mask) buffer.old buffer.new };

    /// No mask has a defined flag, and shifts are below 32.
    ghost lawful_masks: { (map : Self.Map) → LawfulMasks (masks map) };

    /// What is positioned preserves its number of items.
    ghost lawful_lookups: { (map : Self.Map) (face : F) → LawfulLookups (lookups map face) };
}
