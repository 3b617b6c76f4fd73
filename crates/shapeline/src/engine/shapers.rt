//! The shaper that a mode of normalising stands for.

use shape_buffer::interfaces::{MapFace, NoLookups};
use shape_pipeline::ot_shaper::{
    ComposedDiacritics, ComposedDiacriticsNoShortCircuit, DEFAULT_SHAPER, Decomposed, Preferring,
    Shortest, hb_ot_shaper_t,
};
use shape_sessions::mode::Mode;
use shape_sessions::unicode_tables::UnicodeTables;

/// What can be done with any shaper.
pub trait ShaperTask {
    type Answer;

    /// Does it with this one.
    fn run<S: hb_ot_shaper_t<UnicodeTables, MapFace, NoLookups>>(self, shaper: &S) -> Self::Answer;
}

/// Does a task with the shaper of a mode.
pub fn with_shaper<T: ShaperTask>(mode: Mode, task: T) -> T::Answer {
    match mode {
        Mode::Shortest => task.run(&Preferring::<Shortest>::new()),
        Mode::Decomposed => task.run(&Preferring::<Decomposed>::new()),
        Mode::ComposedDiacritics => task.run(&Preferring::<ComposedDiacritics>::new()),
        Mode::ComposedDiacriticsNoShortCircuit => {
            task.run(&Preferring::<ComposedDiacriticsNoShortCircuit>::new())
        }
        Mode::Auto => task.run(&DEFAULT_SHAPER),
    }
}
