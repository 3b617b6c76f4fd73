//! What shapes the texts of a call.
ghost use Rattle.std.specs.Prelude.{◌≡◌, All, IfOk, IfErr};
ghost use Rattle.shape_items.specs.Buffer.{Buffer, new_buffer};
ghost use Rattle.shape_pipeline.specs.Shaped.{shaped};
ghost use Rattle.shape_plan.specs.Run.{Run};
ghost use Rattle.shaper_choice.specs.ScriptPlans.{all_shapers};
ghost use Rattle.opentype_layout.specs.declared.face.OpenTypeFace.{OpenTypeFace as AnyFace};
ghost use Rattle.c_runs.specs.Plans.{AreMadeBy, IsNew};
ghost use Rattle.c_runs.specs.Refusals.{TextPasses};

use crate::plans::{Kept, shape_kept};
use crate::spares::{keep_spare, take_spare};
use layout_map::map::hb_ot_map_t;
use opentype_layout::{OpenTypeLayout, OpenedOpenTypeFace};
use shape_buffer::buffer::{Feature, GlyphBuffer, ShapeError, UnicodeBuffer};
use shape_unicode::UnicodeDatabase;
use shaper_choice::choice::{ScriptRuns, by_script};
use shaper_choice::plans::ScriptPlans;
use std::alloc::Global;

/// Shapes one text after the other, each by the same runs.
pub trait TextShaper {
    /// What holds of it between two texts.
    ghost ready: { Self → Type 0 };

    /// How a text is shaped.
    ghost runs: { Self → Buffer → Run };

    /// The face that it shapes with.
    ghost font: { Self → AnyFace };

    /// The glyphs of a text. Refuses with `Length` if a step would leave a list past the run's
    /// limit, and with `Memory` if a growth was refused.
    fn shape(&mut self, alloc: Global, text: UnicodeBuffer) -> Result<GlyphBuffer, ShapeError>
        requires { ready self.old }
        ensures ready { ready self.new }
        ensures same { runs self.new ≡ runs self.old }
        ensures font { font self.new ≡ font self.old }
        ensures glyphs { IfOk result (λ glyphs. glyphs ≡ shaped (runs self.old text) text) }
        ensures length { IfErr result (λ e. e ≡ ShapeError.Length → TextPasses (runs self.old) text) };

    /// A buffer without text. It may have the room that an earlier text took.
    fn empty(&mut self, alloc: Global) -> UnicodeBuffer
        requires { ready self.old }
        ensures new { result ≡ new_buffer }
        ensures ready { ready self.new }
        ensures same { runs self.new ≡ runs self.old }
        ensures font { font self.new ≡ font self.old };

    /// Takes the buffer of a text that is done, for a later one.
    fn take_back(&mut self, glyphs: GlyphBuffer)
        requires { ready self.old }
        ensures ready { ready self.new }
        ensures same { runs self.new ≡ runs self.old }
        ensures font { font self.new ≡ font self.old };
}

/// A font file with features, the plans that were made for it, and buffers that are kept.
#[derive(Drop)]
pub struct FontShaper<'a> {
    pub face: &'a OpenedOpenTypeFace<'a>,
    pub features: &'a [Feature],
    pub plans: Kept<'static, hb_ot_map_t>,
    pub spares: Vec<UnicodeBuffer>,
}

impl<'a> TextShaper for FontShaper<'a> {
    ghost ready = { λ s. AreMadeBy (⟦<by_script as ScriptPlans<UnicodeDatabase, OpenedOpenTypeFace<'a>, OpenTypeLayout>>⟧.planned
        s.face.now all_shapers) s.plans.items × All IsNew s.spares.items };

    ghost runs = { λ s. ⟦<by_script as ScriptRuns<UnicodeDatabase, OpenedOpenTypeFace<'a>, OpenTypeLayout>>⟧.text_run
        s.face.now s.features.now };

    ghost font = { λ s. s.face.now };

    fn shape(&mut self, alloc: Global, text: UnicodeBuffer) -> Result<GlyphBuffer, ShapeError> {
        shape_kept::<UnicodeDatabase, OpenedOpenTypeFace, OpenTypeLayout>(
            alloc,
            self.face,
            self.features,
            &mut self.plans,
            text,
        )
    }

    fn empty(&mut self, alloc: Global) -> UnicodeBuffer {
        take_spare(alloc, &mut self.spares)
    }

    fn take_back(&mut self, glyphs: GlyphBuffer) {
        keep_spare(&mut self.spares, glyphs);
    }
}
