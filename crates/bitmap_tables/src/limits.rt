//! How much of a table is looked at for one glyph.
ghost use Rattle.std.specs.Prelude.{◌≡◌};
ghost use Rattle.bitmap_tables.specs.Strikes;

/// So many strikes, or subtables of a strike, but no more than are looked at: a font for people has
/// some dozens, and one that states millions would be slow.
pub(crate) fn looked_at(said: u32) -> u32
    ensures { result ≡ Strikes.looked_at said }
{
    said.min(4096)
}
