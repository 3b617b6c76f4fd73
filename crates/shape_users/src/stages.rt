//! An engine of stages alone. Its author writes how many stages there are, what each makes of a
//! buffer, and which features have a bit in masks: [`engine_stages`]. [`Staged`] is the engine: all
//! else that a run asks of one does nothing.
ghost use Rattle.std.specs.Prelude.{◌≡◌, ℕ, Option};
ghost use Rattle.shape_items.specs.Buffer.{Buffer};
ghost use Rattle.shape_buffer.specs.NoLookups.{no_layout};
ghost use Rattle.shape_buffer.specs.Outcome.{IsWithinLimit, Outcome, step};
ghost use Rattle.shape_buffer.specs.Preservation.{IsClusterPreserving, IsFlagPreserving};
ghost use Rattle.shape_buffer.specs.Preservation.{LookupsPreserveClusters, LookupsPreserveFlags};
ghost use Rattle.shape_common.specs.declared.text_types.hb_tag_t.{hb_tag_t as AnyTag};
ghost use Rattle.shape_users.specs.Stages.{bit_of, staged_masks, staged_lookups};
ghost use Rattle.shape_users.specs.Stages.{staged_masks-lawful, staged_lookups-lawful};
ghost use Rattle.shape_users.specs.Worked.Stages.{WorkedStages};

use shape_buffer::buffer::{
    Feature, Language, Script, ShapeError, hb_buffer_t, hb_mask_t, hb_tag_t,
};
use shape_buffer::interfaces::{TableIndex, hb_ot_layout_t, hb_ot_map_builder_t};
use std::alloc::Global;
use std::marker::PhantomData;

/// Stages of substitution over faces of type `F`, as their author writes them. [`Staged`] makes an
/// engine of them.
pub trait engine_stages<F> {
    ghost STAGES: { ℕ };

    /// How many stages there are.
    const STAGES: usize;

    /// The number of each feature that the stages know.
    ghost number: { AnyTag → Option ℕ };

    /// What each stage makes of a buffer.
    ghost made: { F → ℕ → Buffer → Buffer };

    /// The number of a feature, from 0 on; `None` for a feature that the stages don't know. The
    /// first 28 have a bit in masks, which a shaper sets for the items that the feature is to be on
    /// for.
    fn number(tag: hb_tag_t) -> Option<u32>
        ensures { result ≡ number tag };

    /// Runs the stage `i`, from 0 on. Refuses with `Length` if the list would pass the limit, with
    /// `Memory` if a growth was refused.
    fn run_stage(
        alloc: Global,
        i: usize,
        face: &F,
        buffer: &mut hb_buffer_t,
    ) -> Result<(), ShapeError>
        requires { IsWithinLimit buffer.old }
        ensures { Outcome (step (made face.now i)) buffer.old buffer.new result };
}

/// The engine of the stages `E`: it chooses no script, has no kerning and no classes, and pauses
/// after no stage.
pub struct Staged<E> {
    stages: PhantomData<E>,
}

/// The bit of a feature by its number, and its place.
#[tactic(auto, using(std::proofs::lemmas::Nat::one_shl))]
fn bit_of(number: Option<u32>) -> (hb_mask_t, u32)
    ensures { result ≡ bit_of number }
{
    match number {
        Some(n) if n < 28 => (1 << (n + 3), n + 3),
        _ => (0, 0),
    }
}

impl<F, E: engine_stages<F>> hb_ot_layout_t<F> for Staged<E> {
    type Map = ();

    ghost layout = { λ _. no_layout };

    ghost masks = { λ _. staged_masks E.STAGES E.number };

    ghost lookups = { λ _ face. staged_lookups (E.made face) };

    fn chosen_script(
        _face: &F,
        _script: Option<Script>,
        _language: Option<&Language>,
        _table: TableIndex,
    ) -> Option<hb_tag_t> {
        None
    }

    fn compile(
        _alloc: Global,
        _face: &F,
        _builder: &hb_ot_map_builder_t,
    ) -> Result<(), ShapeError> {
        Ok(())
    }

    fn has_glyph_classes(_face: &F) -> bool {
        false
    }

    fn has_kerning(_face: &F) -> bool {
        false
    }

    fn has_machine_kerning(_face: &F) -> bool {
        false
    }

    fn has_cross_kerning(_face: &F) -> bool {
        false
    }

    fn global_mask(_map: &()) -> hb_mask_t {
        0
    }

    fn get_1_mask(_map: &(), tag: hb_tag_t) -> hb_mask_t {
        bit_of(E::number(tag)).0
    }

    fn get_mask(_map: &(), tag: hb_tag_t) -> (hb_mask_t, u32) {
        bit_of(E::number(tag))
    }

    fn get_feature_index(_map: &(), _table: TableIndex, _tag: hb_tag_t) -> Option<u16> {
        None
    }

    fn would_substitute(
        _map: &(),
        _face: &F,
        _tag: hb_tag_t,
        _glyphs: &[u32],
        _zero_context: bool,
    ) -> bool {
        false
    }

    fn substitute_start(_face: &F, _buffer: &mut hb_buffer_t) {}

    fn stages(_map: &()) -> usize {
        E::STAGES
    }

    fn substitute_stage(
        alloc: Global,
        _map: &(),
        i: usize,
        face: &F,
        buffer: &mut hb_buffer_t,
    ) -> Result<(), ShapeError> {
        E::run_stage(alloc, i, face, buffer)
    }

    fn pause_after(_map: &(), _i: usize) -> Option<u32> {
        None
    }

    fn aat_substitute(
        _alloc: Global,
        _map: &(),
        _user_features: &[Feature],
        _face: &F,
        _buffer: &mut hb_buffer_t,
    ) -> Result<(), ShapeError> {
        Ok(())
    }

    fn aat_remove_deleted(_buffer: &mut hb_buffer_t) {}

    fn aat_zero_width_deleted(_buffer: &mut hb_buffer_t) {}

    fn position_start(_face: &F, _buffer: &mut hb_buffer_t) {}

    fn position(
        _alloc: Global,
        _map: &(),
        _face: &F,
        _buffer: &mut hb_buffer_t,
    ) -> Result<(), ShapeError> {
        Ok(())
    }

    fn position_finish_advances(_face: &F, _buffer: &mut hb_buffer_t) {}

    fn position_finish_offsets(_face: &F, _buffer: &mut hb_buffer_t) {}

    fn aat_position(
        _alloc: Global,
        _map: &(),
        _kern_mask: hb_mask_t,
        _face: &F,
        _buffer: &mut hb_buffer_t,
    ) -> Result<(), ShapeError> {
        Ok(())
    }

    fn kern(
        _alloc: Global,
        _kern_mask: hb_mask_t,
        _face: &F,
        _buffer: &mut hb_buffer_t,
    ) -> Result<(), ShapeError> {
        Ok(())
    }

    fn aat_track(_trak_mask: hb_mask_t, _face: &F, _buffer: &mut hb_buffer_t) {}

    ghost lawful_masks = { λ _. staged_masks-lawful E.STAGES E.number };

    ghost lawful_lookups = { λ _ face. staged_lookups-lawful (E.made face) };
}

/// All calls of such an engine preserve clusters if its stages do, and flags if its stages do.
pub fn stages_preserve<F, E: engine_stages<F>>()
    ensures clusters { (map : Unit) (face : F)
        → ((i : ℕ) → IsClusterPreserving (E.made face i))
        → LookupsPreserveClusters (⟦<Staged<E> as hb_ot_layout_t<F>>⟧.lookups map face) }
    ensures flags { (map : Unit) (face : F)
        → ((i : ℕ) → IsFlagPreserving (E.made face i))
        → LookupsPreserveFlags (⟦<Staged<E> as hb_ot_layout_t<F>>⟧.lookups map face) }
{}

/// The bits of features, worked out by hand.
pub fn stages_meet_worked_cases()
    ensures { WorkedStages }
{}
