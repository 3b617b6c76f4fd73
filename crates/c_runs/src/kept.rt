//! A font that is opened once, and the plans that its texts needed.
ghost use Rattle.std.specs.Arc.{arc_value};
ghost use Rattle.std.specs.Prelude.{◌≡◌, map, IfOk, IfErr};
ghost use Rattle.c_runs.specs.Numbers.{feature_of_c};
ghost use Rattle.c_runs.specs.Opened.{IsNamed, name_bytes};
ghost use Rattle.c_runs.specs.Outcomes.{ServesBy};
ghost use Rattle.c_runs.specs.Texts.{units_of};

use crate::plain::{features_of, luthgarn_feature, luthgarn_glyph, luthgarn_outcome, luthgarn_run};
use crate::plans::Kept;
use crate::refusal::Refusal;
use crate::runs::shape_runs;
use crate::shaper::FontShaper;
use crate::texts::Text;
use crate::written::put_bytes;
use layout_map::map::hb_ot_map_t;
use opentype_layout::{OpenTypeFace, OpenTypeLayout, OpenedOpenTypeFace};
use shape_buffer::GlyphId;
use shape_buffer::buffer::UnicodeBuffer;
use shape_buffer::interfaces::hb_font_t;
use shape_unicode::UnicodeDatabase;
use shaper_choice::choice::{ScriptRuns, by_script};
use shaper_choice::plans::ScriptPlans;
use std::alloc::Global;
use std::marker::Model;
use std::mem;
use std::sync::Arc;

/// An opened font. Contracts see it as its face. Copies share what was opened, and each has plans
/// and buffers of its own.
#[derive(Drop)]
pub struct KeptFont {
    face: Arc<OpenedOpenTypeFace<'static>, Global>,
    plans: Kept<'static, hb_ot_map_t>,
    spares: Vec<UnicodeBuffer>,
}

impl Model for KeptFont {
    ghost use Rattle.std.specs.Arc.{arc_value};
    ghost use Rattle.opentype_layout.specs.declared.face.OpenTypeFace.{OpenTypeFace};
    ghost use Rattle.shaper_choice.specs.ScriptPlans.{all_shapers};
    ghost use Rattle.std.specs.Prelude.{All};
    ghost use Rattle.c_runs.specs.Plans.{AreMadeBy, IsNew};

    ghost Value = { OpenTypeFace };

    ghost view = { λ k. arc_value k.face };

    ghost invariant = { λ k. record {
      plans : AreMadeBy
          (⟦<by_script as ScriptPlans<UnicodeDatabase, OpenedOpenTypeFace<'static>, OpenTypeLayout>>⟧.planned
          (arc_value k.face) all_shapers) k.plans.items;
      spares : All IsNew k.spares.items;
    } };
}

impl KeptFont {
    /// Opens a face. Refuses with `Memory` alone.
    pub fn open(alloc: Global, face: OpenTypeFace<'static>) -> Result<KeptFont, Refusal>
        ensures ok { IfOk result (λ kept. kept ≡ face.entry) }
        ensures memory { IfErr result (λ e. e ≡ Refusal.Memory) }
    {
        let opened = OpenedOpenTypeFace::new(alloc, face)?;
        let face = Arc::new(alloc, opened)?;
        KeptFont::of(alloc, face)
    }

    /// A font of an opened face, without plans yet, and with room for one buffer. Refuses with
    /// `Memory` alone.
    fn of(
        alloc: Global,
        face: Arc<OpenedOpenTypeFace<'static>, Global>,
    ) -> Result<KeptFont, Refusal>
        ensures ok { IfOk result (λ kept. kept ≡ arc_value face.entry) }
        ensures memory { IfErr result (λ e. e ≡ Refusal.Memory) }
    {
        let spares = Vec::with_capacity(alloc, 1)?;
        Ok(KeptFont {
            face,
            plans: Vec::new(alloc),
            spares,
        })
    }

    /// A font that shares what was opened, without plans yet. Refuses with `Memory` alone.
    pub fn share(&self, alloc: Global) -> Result<KeptFont, Refusal>
        ensures ok { IfOk result (λ kept. kept ≡ self.now) }
        ensures memory { IfErr result (λ e. e ≡ Refusal.Memory) }
    {
        let face = Arc::try_clone(&self.face)?;
        KeptFont::of(alloc, face)
    }

    /// How many units the em square has.
    pub fn units_per_em(&self) -> u16
        ensures { result ≡ self.now.font.units_per_em }
    {
        self.face.units_per_em()
    }

    /// Writes the name of a glyph by `post` or the charset of `CFF `, if there is room for it, and
    /// gives how many bytes it has; 0 if it has none.
    pub fn write_name(&self, glyph: u32, room: &mut [u8]) -> usize
        ensures { IsNamed (name_bytes self.now glyph) room.old room.new result }
    {
        match self.face.face().font().glyph_name(GlyphId(glyph)) {
            Some(name) => {
                put_bytes(name, room);
                name.len()
            }
            None => 0,
        }
    }

    /// Shapes runs of a text, by the plans that earlier calls made and those that it makes, which
    /// are kept for later calls. Refuses with `Memory` alone.
    pub fn shape(
        &mut self,
        alloc: Global,
        features: &[luthgarn_feature],
        text: Text<'_>,
        runs: &mut [luthgarn_run],
        glyphs: &mut [luthgarn_glyph],
    ) -> Result<luthgarn_outcome, Refusal>
        ensures ok { IfOk result (λ outcome. ServesBy
            ⟦<by_script as ScriptRuns<UnicodeDatabase, OpenedOpenTypeFace<'static>, OpenTypeLayout>>⟧.text_run
            (λ f. f ≡ self.old) (map feature_of_c features.now)
            (units_of text.entry) runs.old runs.new glyphs.old glyphs.new outcome) }
        ensures face { self.new ≡ self.old }
        ensures memory { IfErr result (λ e. e ≡ Refusal.Memory) }
        ensures same { IfErr result (λ _. (runs.new ≡ runs.old) × (glyphs.new ≡ glyphs.old)) }
    {
        let features = features_of(alloc, features)?;
        let mut shaper = FontShaper {
            face: &self.face,
            features: features.as_slice(),
            plans: mem::replace(&mut self.plans, Vec::new(alloc)),
            spares: mem::replace(&mut self.spares, Vec::new(alloc)),
        };
        let outcome = shape_runs(alloc, &mut shaper, text, runs, glyphs);
        self.plans = shaper.plans;
        self.spares = shaper.spares;
        Ok(outcome)
    }
}
