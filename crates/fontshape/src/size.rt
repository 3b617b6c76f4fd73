//! Sizes of a font as they are typed: how many units wide and high its em square is to be.
use font_sizes::Size;

/// A size: one number, or two with a comma or spaces between them.
pub fn size_from_string(text: &str) -> Option<Size> {
    let (x, y) = match text.split_once([',', ' ']) {
        Some((x, y)) => (x, y.trim_start_matches([',', ' '])),
        None => (text, text),
    };
    match (x.parse::<i32>(), y.parse::<i32>()) {
        (Ok(x), Ok(y)) => Some(Size { x, y }),
        _ => None,
    }
}
