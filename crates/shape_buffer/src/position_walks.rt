//! Walks that put in place of each position what a function makes of it and its item.
ghost use Rattle.std.specs.Prelude.{◌≡◌};
ghost use Rattle.shape_items.specs.Items.{Item};
ghost use Rattle.shape_buffer.specs.Outcome.{Made};
ghost use Rattle.shape_buffer.specs.PositionWalks.{positions_mapped};
ghost use Rattle.shape_common.specs.declared.positions.GlyphPosition.{GlyphPosition as Position};

use crate::buffer::{GlyphPosition, hb_buffer_t, hb_glyph_info_t};

/// Puts in place of each position what the function makes of its item and of it. Takes no memory.
pub fn update_positions<C: Fn(&hb_glyph_info_t, GlyphPosition) -> GlyphPosition>(
    buffer: &mut hb_buffer_t,
    change: C,
)
where
    C: Drop,
    requires { C.IsAlwaysCallable change }
    ensures { (f : Item → Position → Position)
        → ((x : _) (p q : Position) → C.post change x p q → q ≡ f x.now p)
        → Made (positions_mapped f) buffer.old buffer.new }
{
    for i in 0..buffer.len() {
        let position = change(&buffer.infos()[i], buffer.positions()[i]);
        buffer.set_position(i, position);
    }
}
