//! Strings as texts: the text of one, and what the promises on its glyphs come to.
ghost use Rattle.std.specs.Prelude.{◌≡◌, ◌≤◌, ◌^◌, ◌↔◌, ℕ, List, length};
ghost use Rattle.std.specs.Prelude.{Err, IfOk, IfErr, OnOk, OnErr, MatchResult};
ghost use Rattle.shape_items.specs.Buffer.{Buffer, cleared, new_buffer};
ghost use Rattle.shape_pipeline.specs.GlyphsOf.{AreGlyphsOf};
ghost use Rattle.shape_pipeline.specs.Order.{RunOrdersClusters};
ghost use Rattle.shape_pipeline.specs.Strings.{AreGlyphsOfString, IsTextOf, string_text};
ghost use Rattle.shape_plan.specs.Preservation.{RunPreservesFlags};
ghost use Rattle.shape_plan.specs.Run.{Run};

use shape_buffer::buffer::{ShapeError, ShapeFault, UnicodeBuffer};
use std::alloc::Global;

/// The text of a string: its characters in the clusters of their first bytes, by the settings of a
/// new buffer. Refuses with `Length` a string of 2^32 bytes and more, since clusters are 32 bits,
/// and with `Memory` if a growth was refused; the buffer that comes back is new.
pub fn text_of_str(alloc: Global, string: &str) -> Result<UnicodeBuffer, ShapeFault>
    ensures ok { IfOk result (λ text. IsTextOf string.now text) }
    ensures text { IfOk result (λ text. text ≡ string_text string.now) }
    ensures length { IfErr result (λ fault. fault.cause ≡ ShapeError.Length
        → 2 ^ 32 ≤ length string.now) }
    ensures bytes { 2 ^ 32 ≤ length string.now
        → MatchResult result (λ _. ⊥) (λ fault. fault.cause ≡ ShapeError.Length) }
    ensures refused { IfErr result (λ fault. fault.buffer ≡ new_buffer) }
{
    let mut buffer = UnicodeBuffer::new(alloc);
    let appended = append(&mut buffer, string);
    match appended {
        Ok(()) => Ok(buffer),
        Err(cause) => Err(ShapeFault { cause, buffer }),
    }
}

/// Appends a string to a new buffer, if it has fewer than 2^32 bytes.
#[tactic(auto, unfolding(crate::specs::Strings::string_text))]
fn append(buffer: &mut UnicodeBuffer, string: &str) -> Result<(), ShapeError>
    requires { buffer.old ≡ new_buffer }
    ensures ok { OnOk result (IsTextOf string.now buffer.new) }
    ensures text { OnOk result (buffer.new ≡ string_text string.now) }
    ensures length { (result ≡ Err ShapeError.Length) ↔ (2 ^ 32 ≤ length string.now) }
    ensures refused { OnErr result (buffer.new ≡ new_buffer) }
{
    if string.len() > u32::MAX as usize {
        return Err(ShapeError::Length);
    }
    buffer.push_str(string)
}

/// What the promises on the glyphs of a text come to if it is that of a string, and hooks and
/// lookups preserve clusters and flags: nothing is asked of the string. If it is refused, what
/// comes back is a new buffer. Does nothing.
pub fn strings_keep_promises()
    ensures glyphs { (run : Run) (bytes : List ℕ) (text glyphs : Buffer)
        → IsTextOf bytes text → AreGlyphsOf run text glyphs
        → RunOrdersClusters run → RunPreservesFlags run
        → AreGlyphsOfString run.unicode bytes glyphs }
    ensures cleared { (bytes : List ℕ) (text : Buffer)
        → IsTextOf bytes text → cleared text ≡ new_buffer }
{}
