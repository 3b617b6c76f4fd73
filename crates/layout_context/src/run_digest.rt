//! The digest of a list, which tells at once which lookups find no glyph there. Lookups change the
//! list, so it is made anew where enough of them are left.
ghost use Rattle.std.specs.Prelude.{◌≡◌, true};
ghost use Rattle.layout_digests.specs.Digests.{IsWithin};
ghost use Rattle.layout_context.specs.Digested.{HoldsGlyphs};

use layout_buffer::ItemList;
use layout_digests::Digest;
use shape_buffer::hb_glyph_info_t;

/// For how many lookups at least a digest of the list is made anew. For fewer it takes longer than
/// the walks that it may save.
const WORTH_RENEWING: usize = 4;

/// A digest with the glyphs of a slice, and those that it had. Inlined, so that the slice is gone
/// over without a call for each.
#[inline(always)]
#[tactic(auto, using(crate::proofs::DigestLemmas::one_held, crate::proofs::DigestLemmas::within_then))]
fn with_piece(digest: Digest, infos: &[hb_glyph_info_t]) -> Digest
    ensures held { HoldsGlyphs result infos.now }
    ensures kept { IsWithin digest result }
{
    let mut all = digest;
    for i in 0..infos.len() {
        all = all.with_glyph(infos[i].glyph_id);
    }
    all
}

/// A digest of no glyph, whose words are filled that `may_share` doesn't compare: so these stay as
/// they are where a list is gone over.
#[inline(always)]
fn first_digest() -> Digest {
    Digest {
        fine: 0,
        halves: u64::MAX,
        quarters: u64::MAX,
        middle: 0,
        blocks: u64::MAX,
        coarse: 0,
    }
}

/// A digest that holds the glyphs of a list. It is gone over in the two pieces in which it is
/// stored.
#[inline(never)]
#[tactic(auto, using(crate::proofs::DigestLemmas::piece_held))]
fn digest_of(items: &ItemList<'_>) -> Digest
    ensures { HoldsGlyphs result items.now }
{
    let mut all = first_digest();
    let mut at = 0;
    while at < items.len() {
        let piece = items.piece(at);
        all = with_piece(all, piece);
        at += piece.len();
    }
    all
}

/// A digest that holds the glyphs of a list, for a stage of so many lookups. For one alone it
/// holds every glyph.
#[inline(always)]
pub fn digest_for(lookups: usize, items: &ItemList<'_>) -> Digest
    ensures { HoldsGlyphs result items.now }
{
    if lookups < 2 {
        Digest::every()
    } else {
        digest_of(items)
    }
}

/// A digest that holds the glyphs of a list that a lookup has changed, where so many lookups are
/// left. For few it holds every glyph.
#[inline(always)]
fn renewed(rest: usize, items: &ItemList<'_>) -> Digest
    ensures { HoldsGlyphs result items.now }
{
    if rest < WORTH_RENEWING {
        Digest::every()
    } else {
        digest_of(items)
    }
}

/// Makes the digest of a list anew, for so many lookups, unless the list was kept as it was.
#[inline(always)]
pub fn renew(run: &mut Digest, is_kept: bool, rest: usize, items: &ItemList<'_>)
    requires { is_kept ≡ true → HoldsGlyphs run.old items.now }
    ensures { HoldsGlyphs run.new items.now }
{
    if !is_kept {
        *run = renewed(rest, items);
    }
}
