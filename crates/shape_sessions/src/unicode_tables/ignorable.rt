//! Default ignorables: characters that are hidden unless a run is asked to show them (UAX 44).
ghost use Rattle.std.specs.Prelude.{◌≡◌};
ghost use Rattle.shape_sessions.specs.Ignorable.{is_ignorable};

/// The combining grapheme joiner, the two zero-width joiners and the variation selectors 1 to 16.
pub fn is_default_ignorable(c: char) -> bool
    ensures { result ≡ is_ignorable c }
{
    matches!(
        c,
        '\u{034F}' | '\u{200C}' | '\u{200D}' | '\u{FE00}'..='\u{FE0F}'
    )
}
