//! Numbers in the bytes of a table, big endian. What lies past the end reads as 0.
ghost use Rattle.std.specs.Prelude.{◌≡◌, ◌≤◌, ◌<◌, ◌+◌, ◌^◌, slice_index};
ghost use Rattle.std.specs.Option.{option_map};
ghost use Rattle.cff_tables.specs.Bytes.{word_of, number_of, part_of};

/// The byte at `at`, or 0 past the end.
pub fn byte_at(table: &[u8], at: usize) -> u8
    ensures { result ≡ slice_index table.now at }
{
    if at < table.len() { table[at] } else { 0 }
}

/// Two bytes from `at` on.
pub fn word_at(table: &[u8], at: usize) -> u16
    requires { at < 2 ^ 63 + 2 ^ 8 }
    ensures { result ≡ word_of table.now at }
{
    u16::from(byte_at(table, at)) * 256 + u16::from(byte_at(table, at + 1))
}

/// A number of `size` bytes, from one to four, from `at` on.
pub fn number_at(table: &[u8], at: usize, size: usize) -> u32
    requires { at ≤ 2 ^ 63 }
    ensures { result ≡ number_of table.now at size }
{
    match size {
        1 => u32::from(byte_at(table, at)),
        2 => u32::from(word_at(table, at)),
        3 => u32::from(byte_at(table, at)) * 65536 + u32::from(word_at(table, at + 1)),
        _ => u32::from(word_at(table, at)) * 65536 + u32::from(word_at(table, at + 2)),
    }
}

/// The bytes from one place to another, if they are there.
pub fn part(table: &[u8], from: usize, to: usize) -> Option<&[u8]>
    ensures { option_map (λ p. p.now) result ≡ part_of table.now from to }
{
    if from <= to && to <= table.len() {
        Some(&table[from..to])
    } else {
        None
    }
}
