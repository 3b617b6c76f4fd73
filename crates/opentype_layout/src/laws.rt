//! What the engine must provide for a run.
ghost use Rattle.std.specs.Prelude.{◌+◌, ◌*◌, ◌≤◌, ℕ, List};
ghost use Rattle.shape_items.specs.Buffer.{Buffer, run_ops};
ghost use Rattle.shape_buffer.specs.Preservation.{EachLookup, LookupsPreserveClusters, LookupsPreserveFlags};
ghost use Rattle.layout_map.specs.Map.{OtMap};
ghost use Rattle.opentype_layout.specs.Engine.{opentype_lookups};
ghost use Rattle.opentype_layout.specs.Tries.{Call, stage_call, position_call, made_by, tries_by, Pays, EachPays, NeverRaises};
ghost use Rattle.opentype_layout.specs.declared.face.OpenTypeFace.{OpenTypeFace as Face};

use crate::engine::OpenTypeLayout;
use crate::face::OpenTypeFace;
use crate::opened::OpenedOpenTypeFace;
use shape_buffer::interfaces::hb_ot_layout_t;

/// Each call of the engine preserves clusters, and each preserves flags, whatever the bytes of the
/// font are and whatever was compiled: the premises of the promises about a run's clusters and
/// flags hold of it.
pub fn opentype_layout_preserves<'a>()
    ensures clusters { (map : OtMap) (face : Face) → LookupsPreserveClusters
        (⟦<OpenTypeLayout as hb_ot_layout_t<OpenTypeFace<'a>>>⟧.lookups map face) }
    ensures flags { (map : OtMap) (face : Face) → LookupsPreserveFlags
        (⟦<OpenTypeLayout as hb_ot_layout_t<OpenTypeFace<'a>>>⟧.lookups map face) }
{}

/// The same of the engine over the face that is opened once.
pub fn opened_layout_preserves<'a>()
    ensures clusters { (map : OtMap) (face : Face) → LookupsPreserveClusters
        (⟦<OpenTypeLayout as hb_ot_layout_t<OpenedOpenTypeFace<'a>>>⟧.lookups map face) }
    ensures flags { (map : OtMap) (face : Face) → LookupsPreserveFlags
        (⟦<OpenTypeLayout as hb_ot_layout_t<OpenedOpenTypeFace<'a>>>⟧.lookups map face) }
{}

/// No font makes a run try more than it may. The subtables that a stage or positioning asks, and
/// the rules and ligatures that it compares, nested ones included, are at most what was left before
/// it less what is left after it, and no call of the engine raises what is left. So what calls try
/// one after the other, whatever else is done between them that doesn't raise it, is at most what
/// was left at the beginning less what is left at the end; and a run that begins with n characters,
/// 64 at least, begins with no more than 40,960 for each.
pub fn calls_try_no_more_than_they_may()
    ensures stage { (map : OtMap) (face : Face) (i : ℕ) → Pays (stage_call map face i) }
    ensures position { (map : OtMap) (face : Face) → Pays (position_call map face) }
    ensures never_raise { (map : OtMap) (face : Face)
        → EachLookup NeverRaises (opentype_lookups map face) }
    ensures in_turn { (calls : List Call) → EachPays calls → (b : Buffer)
        → tries_by calls b + (made_by calls b).max_ops ≤ b.max_ops }
    ensures begun { (n : ℕ) → 64 ≤ n → run_ops n ≤ n * 40960 }
{}
