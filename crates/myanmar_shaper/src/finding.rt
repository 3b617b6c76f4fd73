//! The syllables of a text.
ghost use Rattle.std.specs.Prelude.{◌≡◌};
ghost use Rattle.shape_buffer.specs.Outcome.{Made};
ghost use Rattle.myanmar_shaper.specs.Syllables;

use shape_buffer::buffer::hb_buffer_t;
use syllabic::categories::categorize;
use syllabic::scanning::number_syllables;
use syllabic::walking::mark_syllables;
use syllables::myanmar::myanmar_machine;

/// Numbers the syllables of a text.
fn number(buffer: &mut hb_buffer_t)
    ensures { Made Syllables.numbered buffer.old buffer.new }
{
    number_syllables(myanmar_machine(), 0, buffer);
}

/// Finds the syllables of a text, and marks each unsafe to break.
pub fn find_syllables(buffer: &mut hb_buffer_t)
    ensures { Made Syllables.found buffer.old buffer.new }
{
    categorize(buffer);
    number(buffer);
    mark_syllables(buffer);
}
