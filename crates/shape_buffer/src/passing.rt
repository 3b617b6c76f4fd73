//! How a walk passes over items that it has no work at.
ghost use Rattle.std.specs.Prelude.{◌≡◌, ◌+◌, ◌<◌, ◌≤◌, Bool, false, length, take, ◌||◌, slice_index_or};
ghost use Rattle.std.specs.Fn.{FnReturnsAt};
ghost use Rattle.std.specs.List.{list_any};
ghost use Rattle.shape_items.specs.Items.{Item};

use crate::buffer::hb_glyph_info_t;

/// Whether one of the four items from a place on passes the test.
#[inline(always)]
fn is_in_four<P: Fn(&hb_glyph_info_t) -> bool>(infos: &[hb_glyph_info_t], i: usize, is: &P) -> bool
    requires callable { P.IsAlwaysCallable is.now }
    requires within { i + 3 < length infos.now }
    ensures { (p : Item → Bool)
        → ((x : Item) (y : Bool) → FnReturnsAt P.Fn is.now x y → y ≡ p x) → (d : Item)
        → result ≡ (p (slice_index_or infos.now i d) || (p (slice_index_or infos.now (i + 1) d)
        || (p (slice_index_or infos.now (i + 2) d) || p (slice_index_or infos.now (i + 3) d)))) }
{
    is(&infos[i]) || is(&infos[i + 1]) || is(&infos[i + 2]) || is(&infos[i + 3])
}

/// How many items at the beginning a walk may pass over, since none of them passes the test: all,
/// if no item does and there are four or more. Looks at four items at a time, the last four at the
/// end, so that a word of some letters without marks is done with after two looks.
#[inline(always)]
pub fn passed_over<P: Fn(&hb_glyph_info_t) -> bool>(infos: &[hb_glyph_info_t], is: P) -> usize
where
    P: Drop,
    requires { P.IsAlwaysCallable is }
    ensures none { (p : Item → Bool)
        → ((x : Item) (y : Bool) → FnReturnsAt P.Fn is x y → y ≡ p x)
        → list_any p (take result infos.now) ≡ false }
    ensures within { result ≤ length infos.now }
{
    let len = infos.len();
    if len < 4 {
        return 0;
    }
    let fours = (len - 1) / 4;
    for k in 0..fours {
        if is_in_four(infos, 4 * k, &is) {
            return 4 * k;
        }
    }
    if is_in_four(infos, len - 4, &is) {
        return 4 * fours;
    }
    len
}
