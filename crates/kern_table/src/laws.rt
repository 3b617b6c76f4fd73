//! What the engine must provide for a run.
ghost use Rattle.shape_buffer.specs.Preservation.{LookupsPreserveClusters, LookupsPreserveFlags};
ghost use Rattle.shape_font.specs.declared.face.FontFace.{FontFace as Face};
ghost use Rattle.kern_table.specs.declared.map.KernMap.{KernMap as Map};

use crate::engine::KernTable;
use shape_buffer::interfaces::hb_ot_layout_t;
use shape_font::FontFace;

/// Each call of the engine preserves clusters, and each preserves flags: the premises of the
/// promises about a run's clusters and flags hold of it for every font.
pub fn kern_table_preserves<'a>()
    ensures clusters { (map : Map) (face : Face)
        → LookupsPreserveClusters (⟦<KernTable as hb_ot_layout_t<FontFace<'a>>>⟧.lookups map face) }
    ensures flags { (map : Map) (face : Face)
        → LookupsPreserveFlags (⟦<KernTable as hb_ot_layout_t<FontFace<'a>>>⟧.lookups map face) }
{}
