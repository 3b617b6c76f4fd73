//! How a picture looks: its colours, and the margins around what is drawn.
use std::alloc::{AllocError, Global};

/// The widest margin, in units of the font.
const WIDEST: u32 = 1_000_000;

/// How far what is drawn stands from the sides of the picture, in units of the font.
#[derive(Clone, Copy)]
pub struct Margins {
    pub top: u32,
    pub right: u32,
    pub bottom: u32,
    pub left: u32,
}

/// The colours of a picture as they are written, and its margins; none for those that it has by
/// itself.
#[derive(Drop)]
pub struct Look {
    pub background: Option<String>,
    pub foreground: Option<String>,
    pub margins: Option<Margins>,
}

/// A colour in three, four, six or eight hexadecimal digits, with or without a `#` before them,
/// as SVG writes it.
pub fn colour_from_string(alloc: Global, text: &str) -> Result<Option<String>, AllocError> {
    let digits = text.strip_prefix('#').unwrap_or(text);
    let right = matches!(digits.len(), 3 | 4 | 6 | 8);
    if !right || !digits.bytes().all(|byte| byte.is_ascii_hexdigit()) {
        return Ok(None);
    }
    Ok(Some(format!(in alloc; "#{digits}")?))
}

/// Up to four numbers, with commas or spaces between them, and how many there are; none if one is
/// none, or too large.
fn numbers(text: &str) -> Option<([u32; 4], usize)> {
    let mut found: [u32; 4] = [0; 4];
    let mut count: usize = 0;
    for word in text.split([',', ' ']) {
        if word.is_empty() {
            continue;
        }
        match (found.get_mut(count), word.parse::<u32>()) {
            (Some(place), Ok(number)) if number <= WIDEST => *place = number,
            _ => return None,
        }
        count = count.saturating_add(1);
    }
    Some((found, count))
}

/// Margins: one number for all sides; two for those above and below, and those beside; three for
/// the one above, those beside, and the one below; or four, from the one above on clockwise.
pub fn margins_from_string(text: &str) -> Option<Margins> {
    let ([top, second, third, fourth], count) = numbers(text)?;
    let (right, bottom, left) = match count {
        1 => (top, top, top),
        2 => (second, top, second),
        3 => (second, third, second),
        4 => (second, third, fourth),
        _ => return None,
    };
    Some(Margins {
        top,
        right,
        bottom,
        left,
    })
}
