//! Variation selectors: what picks a variant of the character before it.
ghost use Rattle.std.specs.Prelude.{◌≡◌};
ghost use Rattle.shape_sessions.specs.Selector.{is_selector};

/// The variation selectors 1 to 16.
pub fn is_variation_selector(c: char) -> bool
    ensures { result ≡ is_selector c }
{
    matches!(c, '\u{FE00}'..='\u{FE0F}')
}
