//! Pictographs: what a ZWJ joins to an emoji before it (UTS 51, Extended_Pictographic).
ghost use Rattle.std.specs.Prelude.{◌≡◌};
ghost use Rattle.shape_sessions.specs.Pictograph.{is_pictograph};

/// The block of faces and gestures, U+1F600 to U+1F64F.
pub fn is_emoji_extended_pictographic(c: char) -> bool
    ensures { result ≡ is_pictograph c }
{
    matches!(c, '\u{1F600}'..='\u{1F64F}')
}
