//! The command line, as a shell takes it.
use std::alloc::{AllocError, Global};

/// Whether a shell takes a character for itself, wherever it stands.
fn is_plain(c: char) -> bool {
    c.is_ascii_alphanumeric()
        || matches!(c, '-' | '_' | '.' | '/' | ',' | '=' | ':' | '+' | '@' | '%')
}

/// Appends a word, in quotes if a shell would change it or take it apart.
fn push_word(out: &mut String, word: &str) -> Result<(), AllocError> {
    if !word.is_empty() && word.chars().all(is_plain) {
        return out.push_str(word);
    }
    out.push('\'')?;
    for c in word.chars() {
        match c {
            '\'' => out.push_str("'\\''")?,
            _ => out.push(c)?,
        }
    }
    out.push('\'')
}

/// The command of these words, of which the first is the program.
pub fn command_line(alloc: Global, words: &[String]) -> Result<String, AllocError> {
    let mut out = String::from_str(alloc, "fontshape")?;
    for word in words.get(1..).unwrap_or(&[]) {
        out.push(' ')?;
        push_word(&mut out, word.as_str())?;
    }
    Ok(out)
}
