//! What the rules of a lookup looked at in vain.
ghost use Rattle.std.specs.Prelude.{◌≡◌, ◌<◌, ◌^◌, length};
ghost use Rattle.shape_items.specs.Buffer.{limit_of};
ghost use Rattle.layout_context.specs.Nested;

use layout_buffer::GapBuffer;
use layout_matching::lookup::Lookup;
use layout_matching::reaching::reach_at;
use layout_matching::spans::Origin;
use layout_substitution::apply::Spot;
use layout_substitution::edits::{asks_for_concat, concat_span};

/// Where a match begins.
pub(crate) fn origin(spot: Spot, buffer: &GapBuffer) -> Origin
    ensures { result ≡ Nested.origin_of spot buffer.now }
{
    Origin {
        at: spot.at,
        is_steady: buffer.len() == spot.whole,
    }
}

/// Marks what the rules of a lookup looked at in vain unsafe to concat, up to the first that
/// matches, if the buffer asks for that.
#[tactic(auto, using(layout_substitution::proofs::EditLemmas::concat_marked_unasked))]
pub(crate) fn mark_tried(lookup: &Lookup<'_>, buffer: &mut GapBuffer, spot: Spot)
    requires near { lookup.now.place < 2 ^ 17 }
    requires inside { spot.at < length buffer.old.items }
    ensures made { buffer.new ≡ Nested.tried_marked lookup.now spot buffer.old }
    ensures as_many { length buffer.new.items ≡ length buffer.old.items }
    ensures limit { limit_of buffer.new ≡ limit_of buffer.old }
{
    if !asks_for_concat(buffer) {
        return;
    }
    let reach = reach_at(lookup, &buffer.items(), origin(spot, buffer));
    concat_span(buffer, reach);
}
