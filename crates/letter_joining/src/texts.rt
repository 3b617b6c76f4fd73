//! The letters of a text, joined.
ghost use Rattle.shape_buffer.specs.Outcome.{Made};
ghost use Rattle.letter_joining.specs.Flags.{joined};

use crate::flags::mark_all;
use crate::forms::{FormMasks, form_all};
use shape_buffer::buffer::hb_buffer_t;

/// Sets the masks of the forms of letters, and the flags that joining needs.
pub fn join_all(masks: FormMasks, mongolian: bool, buffer: &mut hb_buffer_t)
    ensures { Made (joined masks mongolian) buffer.old buffer.new }
{
    form_all(masks, mongolian, buffer);
    mark_all(buffer);
}
