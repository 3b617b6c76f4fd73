//! Parts of a table that stand at an offset.
ghost use Rattle.std.specs.Prelude.{◌≡◌};
ghost use Rattle.font_variations.specs.Parts;

/// The bytes from an offset on; none where it is NULL or leads past the end.
pub fn part_at(table: &[u8], offset: usize) -> &[u8]
    ensures { result.now ≡ Parts.part_at table.now offset }
{
    if offset == 0 {
        return &[];
    }
    if table.len() < offset {
        return &[];
    }
    &table[offset..]
}
