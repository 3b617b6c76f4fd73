//! Places in a list, and in a table of records.
ghost use Rattle.std.specs.Prelude.{◌≡◌, ◌<◌, ◌≤◌, ◌*◌, ◌+◌, min};

/// The number of a cell in rows of so many.
#[tactic(auto, using(crate::proofs::ProductLemmas::product_short))]
pub fn cell(row: u32, columns: u32, column: u32) -> usize
    requires row { row < 65536 }
    requires columns { columns < 65536 }
    requires column { column < 65536 }
    ensures value { result ≡ row * columns + column }
    ensures near { result < 4294967296 }
{
    row as usize * columns as usize + column as usize
}

/// How far record number `n` stands from the first one, if each has so many bytes.
#[tactic(auto, using(crate::proofs::ProductLemmas::product_size))]
pub fn record_offset(n: usize, size: usize) -> usize
    requires n { n < 4294967296 }
    requires size { size ≤ 66 }
    ensures value { result ≡ n * size }
    ensures near { result ≤ 283467841470 }
{
    n * size
}

/// The place after one of so many.
pub fn after(count: usize, at: usize) -> usize
    requires { at < count }
    ensures { result ≡ at + 1 }
{
    at + 1
}

/// The second place after one of so many, or the end.
pub fn two_after(count: usize, at: usize) -> usize
    requires { at < count }
    ensures { result ≡ min (at + 2) count }
{
    if at + 1 < count { at + 2 } else { count }
}
