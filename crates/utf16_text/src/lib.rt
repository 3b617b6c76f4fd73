//! Texts in UTF-16 for a buffer, as Windows, Java, .NET and ICU have them: what `push_str`,
//! `set_pre_context` and `set_post_context` of a `UnicodeBuffer` do with a text in UTF-8.
//!
//! Any units are a text: a surrogate in no pair stands for U+FFFD, as in HarfBuzz
//! (`hb_buffer_add_utf16`).
#![tactic(auto)]

ghost use Rattle.std.specs.Prelude.{◌≡◌, ◌<◌, ◌^◌, ◌++◌, length, take, replicate, All};
ghost use Rattle.std.specs.Prelude.{string_bytes, IfOk, IsOkUnless, OnErr, OnOk};
ghost use Rattle.std.specs.Char.Utf16.{utf16_lossy_chars};
ghost use Rattle.std.specs.Str.{chars};
ghost use Rattle.shape_common.specs.Positions.{zero_position};
ghost use Rattle.utf16_text.specs.Utf16.{utf16_items, utf16_before, utf16_after, IsFirstUnit};
ghost use Rattle.utf16_text.specs.Worked.Units.{WorkedUnits};

use shape_buffer::buffer::{ShapeError, UnicodeBuffer};
use std::alloc::{AllocError, Global};

/// Appends the characters of a text in UTF-16, each in the cluster of its first unit, counted from
/// the start of the text. The text has fewer than 2^32 units, since clusters are 32 bits. Refuses
/// with `Memory` alone; a refused call may have appended some of the characters.
pub fn push_utf16(alloc: Global, buffer: &mut UnicodeBuffer, text: &[u16]) -> Result<(), ShapeError>
    requires { length text.now < 2 ^ 32 }
    ensures ok { OnOk result (buffer.new ≡ record buffer.old {
      items = buffer.old.items ++ utf16_items text.now;
      positions = buffer.old.positions ++ replicate (length (utf16_items text.now)) zero_position;
    }) }
    ensures memory { IsOkUnless result ShapeError.Memory }
    ensures settings { buffer.new ≡ record buffer.old {
      items = buffer.new.items;
      positions = buffer.new.positions;
    } }
    ensures before { take (length buffer.old.items) buffer.new.items ≡ buffer.old.items }
    ensures first { All (IsFirstUnit text.now) (utf16_items text.now) }
{
    let text = String::from_utf16_lossy(alloc, text)?;
    let mut cluster: u32 = 0;
    for c in text.as_str().chars() {
        buffer.add(c, cluster)?;
        cluster += c.len_utf16() as u32;
    }
    Ok(())
}

/// The text in UTF-8.
fn spelled(alloc: Global, text: &[u16]) -> Result<String, AllocError>
    ensures { IfOk result (λ spelled. chars (string_bytes spelled) ≡ utf16_lossy_chars text.now) }
{
    String::from_utf16_lossy(alloc, text)
}

/// How many units are looked at beside a text: they spell five characters at least.
const BESIDE: usize = 10;

/// The units that spell the last five characters.
fn last_units(text: &[u16]) -> &[u16]
    ensures { utf16_before result.now ≡ utf16_before text.now }
{
    &text[text.len().saturating_sub(BESIDE)..]
}

/// The units that spell the first five characters.
fn first_units(text: &[u16]) -> &[u16]
    ensures { utf16_after result.now ≡ utf16_after text.now }
{
    &text[..text.len().min(BESIDE)]
}

/// Keeps the last five characters of a text in UTF-16 before that of the buffer, and sets nothing
/// else. Refuses with `Memory` alone, and sets nothing then.
pub fn set_utf16_pre_context(
    alloc: Global,
    buffer: &mut UnicodeBuffer,
    text: &[u16],
) -> Result<(), ShapeError>
    ensures ok { OnOk result (buffer.new ≡ record buffer.old {
      pre_context = utf16_before text.now;
    }) }
    ensures memory { IsOkUnless result ShapeError.Memory }
    ensures err { OnErr result (buffer.new ≡ buffer.old) }
{
    let text = spelled(alloc, last_units(text))?;
    buffer.set_pre_context(text.as_str());
    Ok(())
}

/// Keeps the first five characters of a text in UTF-16 after that of the buffer, and sets nothing
/// else. Refuses with `Memory` alone, and sets nothing then.
pub fn set_utf16_post_context(
    alloc: Global,
    buffer: &mut UnicodeBuffer,
    text: &[u16],
) -> Result<(), ShapeError>
    ensures ok { OnOk result (buffer.new ≡ record buffer.old {
      post_context = utf16_after text.now;
    }) }
    ensures memory { IsOkUnless result ShapeError.Memory }
    ensures err { OnErr result (buffer.new ≡ buffer.old) }
{
    let text = spelled(alloc, first_units(text))?;
    buffer.set_post_context(text.as_str());
    Ok(())
}

/// Texts by hand: pairs, and surrogates in no pair. Does nothing.
pub fn units_meet_worked_cases()
    ensures { WorkedUnits }
{}
