//! Marks that follow a ligature, and what they cost.
//!
//! A glyph on a ligature of a lookup may be taken apart into more than the text has characters. Of
//! ligatures made of these, each is followed by all that are left: so each of them is charged for.
ghost use Rattle.std.specs.Prelude.{◌≡◌, ◌<◌, ◌≤◌, ◌+◌, length};
ghost use Rattle.std.specs.List.{prefix_len};
ghost use Rattle.shape_items.specs.Buffer.{limit_of};
ghost use Rattle.arabic_fallback.specs.Ligating;

use crate::ligating::Ligation;
use shape_buffer::buffer::{hb_buffer_t, hb_glyph_info_t};

/// What a mark costs that follows a ligature, since it is written anew.
const FOLLOWED: usize = 4;

/// Whether a mark stands on a component of the ligature that the last component was.
fn follows(id: u8, there: &hb_glyph_info_t) -> bool
    ensures { result ≡ Ligating.follows id there.now }
{
    there._hb_glyph_info_get_ligature_id() == id
        && 0 < there._hb_glyph_info_get_ligature_component()
}

/// How many marks at the beginning of a list follow.
fn count_following(id: u8, rest: &[hb_glyph_info_t]) -> usize
    ensures value { result ≡ prefix_len (Ligating.follows id) rest.now }
    ensures within { result ≤ length rest.now }
{
    rest.iter().take_while(|there| follows(id, there)).count()
}

/// How many marks after the last component follow it. None follow a ligature of marks, or a
/// component that was no ligature.
pub fn followers(made: &Ligation, infos: &[hb_glyph_info_t]) -> usize
    requires { made.now.found.last < length infos.now }
    ensures value { result ≡ Ligating.followers made.now infos.now }
    ensures within { made.now.found.last + 1 + result ≤ length infos.now }
{
    if made.marks || made.last_id == 0 {
        return 0;
    }
    count_following(made.last_id, &infos[made.found.last + 1..])
}

/// Charges for the marks that follow a ligature, which is still to be made.
pub(crate) fn charge_following(buffer: &mut hb_buffer_t, made: &Ligation)
    requires { made.now.found.last < length buffer.old.items }
    ensures made { buffer.new ≡ Ligating.following_charged made.now buffer.old }
    ensures as_many { length buffer.new.items ≡ length buffer.old.items }
    ensures limit { limit_of buffer.new ≡ limit_of buffer.old }
{
    let followed = followers(made, buffer.infos()).saturating_mul(FOLLOWED);
    let left = buffer.max_ops().saturating_sub(followed);
    buffer.set_max_ops(left);
}
