//! Numbers in the bytes of a table, big endian. What lies past the end reads as 0.
ghost use Rattle.std.specs.Prelude.{◌≡◌, ◌<◌, ◌≤◌, ◌+◌, ◌^◌, length, slice_index, pos, negsuc, ◌≤ℤ◌};
ghost use Rattle.font_bytes.specs.Bytes.{u16_of, u24_of, u32_of, i8_of, i16_of, i32_of, fitting};

/// The byte at `at`, or 0 past the end.
pub fn u8_at(table: &[u8], at: usize) -> u8
    ensures { result ≡ slice_index table.now at }
{
    if at < table.len() { table[at] } else { 0 }
}

/// Two bytes that the table has room for.
pub fn word(table: &[u8], at: usize) -> u16
    requires { at + 1 < length table.now }
    ensures { result ≡ u16_of table.now at }
{
    u16::from(table[at]) * 256 + u16::from(table[at + 1])
}

/// Four bytes that the table has room for.
pub fn long(table: &[u8], at: usize) -> u32
    requires { at + 3 < length table.now }
    ensures { result ≡ u32_of table.now at }
{
    u32::from(word(table, at)) * 65536 + u32::from(word(table, at + 2))
}

/// Two bytes from `at` on. Within the table there is one test for both.
pub fn u16_at(table: &[u8], at: usize) -> u16
    requires { at < 2 ^ 48 }
    ensures { result ≡ u16_of table.now at }
{
    if at + 1 < table.len() {
        word(table, at)
    } else {
        u16::from(u8_at(table, at)) * 256
    }
}

/// Three bytes from `at` on.
pub fn u24_at(table: &[u8], at: usize) -> u32
    requires { at < 2 ^ 40 }
    ensures value { result ≡ u24_of table.now at }
    ensures small { result < 2 ^ 24 }
{
    u32::from(u8_at(table, at)) * 65536 + u32::from(u16_at(table, at + 1))
}

/// Four bytes from `at` on. Within the table there is one test for all.
pub fn u32_at(table: &[u8], at: usize) -> u32
    requires { at < 2 ^ 40 }
    ensures { result ≡ u32_of table.now at }
{
    if at + 3 < table.len() {
        long(table, at)
    } else {
        u32::from(u16_at(table, at)) * 65536 + u32::from(u16_at(table, at + 2))
    }
}

/// Two bytes from `at` on, in two's complement.
#[tactic(auto, unfolding(crate::specs::Bytes::i16_of))]
pub fn i16_at(table: &[u8], at: usize) -> i32
    requires { at < 2 ^ 40 }
    ensures value { result ≡ i16_of table.now at }
    ensures low { negsuc 32767 ≤ℤ result }
    ensures high { result ≤ℤ pos 32767 }
{
    let n = u16_at(table, at);
    if n < 32768 {
        i32::from(n)
    } else {
        i32::from(n) - 65536
    }
}

/// The byte at `at`, in two's complement.
#[tactic(auto, unfolding(crate::specs::Bytes::i8_of))]
pub fn i8_at(table: &[u8], at: usize) -> i32
    ensures value { result ≡ i8_of table.now at }
    ensures low { negsuc 127 ≤ℤ result }
    ensures high { result ≤ℤ pos 127 }
{
    let n = u8_at(table, at);
    if n < 128 {
        i32::from(n)
    } else {
        i32::from(n) - 256
    }
}

/// Four bytes from `at` on, in two's complement.
#[tactic(auto, unfolding(crate::specs::Bytes::i32_of))]
pub fn i32_at(table: &[u8], at: usize) -> i32
    requires { at < 2 ^ 40 }
    ensures { result ≡ i32_of table.now at }
{
    let n = i64::from(u32_at(table, at));
    if n < 0x8000_0000 {
        n as i32
    } else {
        (n - 0x1_0000_0000) as i32
    }
}

/// How many records of `size` bytes a table has room for from `at` on, at most as many as are said.
pub fn records(table: &[u8], said: u32, at: usize, size: usize) -> u32
    requires { 0 < size }
    ensures value { result ≡ fitting table.now said at size }
    ensures said { result ≤ said }
{
    let room = table.len().saturating_sub(at) / size;
    if room < said as usize {
        room as u32
    } else {
        said
    }
}
