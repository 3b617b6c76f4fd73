//! Walks that put in place of each item what a function makes of it.
ghost use Rattle.std.specs.Prelude.{◌≡◌};
ghost use Rattle.std.specs.Fn.{FnReturnsAt};
ghost use Rattle.shape_items.specs.Items.{Item};
ghost use Rattle.shape_buffer.specs.Outcome.{Made};
ghost use Rattle.shape_buffer.specs.Walks.{items_mapped};

use crate::buffer::{hb_buffer_t, hb_glyph_info_t};

/// Puts in place of each item what the function makes of it. Takes no memory.
pub fn update_items<C: Fn(&hb_glyph_info_t) -> hb_glyph_info_t>(buffer: &mut hb_buffer_t, change: C)
where
    C: Drop,
    requires { C.IsAlwaysCallable change }
    ensures { (f : Item → Item) → ((x y : Item) → FnReturnsAt C.Fn change x y → y ≡ f x)
        → Made (items_mapped f) buffer.old buffer.new }
{
    for i in 0..buffer.len() {
        let item = change(&buffer.infos()[i]);
        buffer.set_info(i, item);
    }
}
