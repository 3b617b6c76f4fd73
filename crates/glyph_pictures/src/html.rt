//! Texts in HTML and XML (HTML, 13.1.2.3 "Attributes" and 13.1.3 "Text"; XML, 2.2 and 4.6): no
//! character of a name or a text ends the element or the quoted value that it stands in, or
//! begins a reference.
ghost use Rattle.std.specs.Prelude.{◌≡◌, ◌++◌, string_bytes, IfOk};
ghost use Rattle.std.specs.Str.{chars, encode_utf8_all};
ghost use Rattle.glyph_pictures.specs.Html.{html_of, written, ReadsBack};

use std::alloc::AllocError;

/// Appends what stands for a character.
pub(crate) fn push_char(out: &mut String, c: char) -> Result<(), AllocError>
    ensures { IfOk result (λ _. string_bytes out.new
        ≡ string_bytes out.old ++ encode_utf8_all (written c)) }
{
    match c {
        '"' => out.push_str("&quot;"),
        '&' => out.push_str("&amp;"),
        '\'' => out.push_str("&#39;"),
        '<' => out.push_str("&lt;"),
        '>' => out.push_str("&gt;"),
        '\t' | '\n' => out.push(c),
        '\0'..='\u{1F}' | '\u{7F}'..='\u{9F}' | '\u{FFFE}' | '\u{FFFF}' => out.push('\u{FFFD}'),
        _ => out.push(c),
    }
}

/// Appends a text, so that a reader of HTML takes it for that text, in an element and in a quoted
/// value of an attribute. U+FFFD stands for a control character other than tab and line feed, for
/// U+FFFE and for U+FFFF. Refuses only if a growth was refused.
pub fn push_html(out: &mut String, text: &str) -> Result<(), AllocError>
    ensures { IfOk result (λ _. string_bytes out.new
        ≡ string_bytes out.old ++ encode_utf8_all (html_of (chars text.now))) }
{
    for c in text.chars() {
        push_char(out, c)?;
    }
    Ok(())
}

/// A reader of HTML takes what is written for a text for that text, and finds none of the
/// characters that end one.
pub fn written_texts_read_back()
    ensures { ReadsBack }
{}
