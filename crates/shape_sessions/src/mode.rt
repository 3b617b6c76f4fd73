//! How texts are normalised, as a line chooses it.
ghost use Rattle.std.specs.Prelude.{◌≤◌};
ghost use Rattle.std.specs.Option.{SomeIff};
ghost use Rattle.shape_sessions.specs.Modes.{mode_of};

/// The modes of normalising. Each stands for a shaper that prefers it; the last is that of the
/// default shaper.
#[derive(Clone, Copy)]
pub enum Mode {
    Shortest,
    Decomposed,
    ComposedDiacritics,
    ComposedDiacriticsNoShortCircuit,
    Auto,
}

impl Mode {
    /// The mode of a number from 0 to 4. Refuses every other number.
    pub fn from_number(number: u32) -> Option<Mode>
        ensures { SomeIff result (number ≤ 4) (mode_of number) }
    {
        match number {
            0 => Some(Mode::Shortest),
            1 => Some(Mode::Decomposed),
            2 => Some(Mode::ComposedDiacritics),
            3 => Some(Mode::ComposedDiacriticsNoShortCircuit),
            4 => Some(Mode::Auto),
            _ => None,
        }
    }
}
