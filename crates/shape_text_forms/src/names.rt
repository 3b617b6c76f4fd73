//! What one word names: a tag, a direction, a script, a language.
ghost use Rattle.std.specs.Prelude.{◌≡◌, ◌≤◌, ◌<◌, None, map, take, length, string_bytes, IfOk, IsOk};
ghost use Rattle.std.specs.List.{prefix_len};
ghost use Rattle.std.specs.Option.{option_map};
ghost use Rattle.shape_text_forms.specs.Names.{tag_of_text, script_of_text, direction_of_text, spelled, is_spelled};
ghost use Rattle.shape_text_forms.specs.Names.{language_name, language_of_text};

use crate::feature::{is_letter, tag_value};
use shape_buffer::{Direction, Language, Script, hb_tag_t};
use std::alloc::{AllocError, Global};

/// The tag of the first four bytes of a text, filled up with spaces; 0 for an empty text (HarfBuzz,
/// `hb_tag_from_string`).
pub fn tag_from_string(text: &str) -> hb_tag_t
    ensures { result.0 ≡ tag_of_text text.now }
{
    if text.is_empty() {
        return hb_tag_t(0);
    }
    tag_value(text.as_bytes())
}

/// The script of a tag of ISO 15924 in any case, as `Script::from_iso15924_tag` tells it: none for
/// an empty text, and Unknown for what doesn't look like a name.
pub fn script_from_string(text: &str) -> Option<Script>
    ensures { result ≡ script_of_text text.now }
{
    Script::from_iso15924_tag(tag_from_string(text))
}

/// The direction by its first letter in any case, as of `ltr` or `left-to-right`; Invalid if it
/// names none (HarfBuzz, `hb_direction_from_string`).
pub fn direction_from_string(text: &str) -> Direction
    ensures { result ≡ direction_of_text text.now }
{
    match text.as_bytes() {
        [first, ..] if is_letter(b'l', *first) => Direction::LeftToRight,
        [first, ..] if is_letter(b'r', *first) => Direction::RightToLeft,
        [first, ..] if is_letter(b't', *first) => Direction::TopToBottom,
        [first, ..] if is_letter(b'b', *first) => Direction::BottomToTop,
        _ => Direction::Invalid,
    }
}

/// How a byte of a language's name is spelled, 0 if it ends the name.
fn spelled(byte: u8) -> u8
    ensures value { result ≡ spelled byte }
    ensures ascii { result < 128 }
{
    match byte {
        b'a'..=b'z' | b'0'..=b'9' | b'-' => byte,
        b'A'..=b'Z' => byte + 32,
        b'_' => b'-',
        _ => 0,
    }
}

/// How many bytes at the front of a text a language's name is made of.
fn name_len(text: &[u8]) -> usize
    ensures value { result ≡ prefix_len is_spelled text.now }
    ensures within { result ≤ length text.now }
{
    text.iter().take_while(|byte| spelled(**byte) != 0).count()
}

/// The bytes as a language's name spells them.
fn respelled(alloc: Global, bytes: &[u8]) -> Result<String, AllocError>
    ensures { IfOk result (λ name. string_bytes name ≡ map spelled bytes.now) }
{
    let mut name = String::new(alloc);
    for byte in bytes {
        name.push(char::from(spelled(*byte)))?;
    }
    Ok(name)
}

/// The language of a name of BCP 47 or of POSIX, in HarfBuzz's spelling: small letters, `-` for
/// `_`, and nothing from the first other byte on, so that `fa_IR.UTF-8` is `fa-ir`. None if no name
/// is left (HarfBuzz, `hb_language_from_string`). Refuses only if a growth of the name was refused,
/// so never if there is none.
pub fn language_from_string(alloc: Global, text: &str) -> Result<Option<Language>, AllocError>
    ensures named { IfOk result (λ r. option_map (λ l. string_bytes l.0) r
        ≡ language_of_text text.now) }
    ensures unnamed { language_of_text text.now ≡ None → IsOk result }
{
    let bytes = text.as_bytes();
    let len = name_len(bytes);
    if len == 0 {
        return Ok(None);
    }
    let name = respelled(alloc, &bytes[..len])?;
    Ok(Some(Language(name)))
}
