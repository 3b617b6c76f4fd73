//! The stages of substitution: the lookups up to each pause.
ghost use Rattle.std.specs.Prelude.{◌≡◌};

use crate::chosen::ChosenTable;
use crate::features::FeatureMap;
use crate::lookups::{LookupMap, append_gsub};
use shape_buffer::ShapeError;
use std::alloc::Global;
use std::marker::Model;

/// A stage of substitution: where its lookups end in the list of all, and the number of the pause
/// after it, if it has one. It begins where the stage before it ends.
#[derive(Clone, Copy, PartialEq, Eq, Debug)]
pub struct StageMap {
    pub end: usize,
    pub pause: Option<u32>,
}

/// The lookups of `GSUB`, one stage after the other, and the stages.
#[derive(Drop)]
pub struct Stages {
    lookups: Vec<LookupMap>,
    stages: Vec<StageMap>,
}

impl Model for Stages {
    ghost use Rattle.layout_map.specs.Stages.{Staged};

    ghost Value = { Staged };

    ghost view = { λ s. record { lookups = s.lookups.items; stages = s.stages.items } };
}

impl Stages {
    ghost use Rattle.std.specs.Prelude.{length, OnOk, IfOk, IsOkUnless, None};
    ghost use Rattle.layout_map.specs.Stages.{
      no_stages,
      with_stage,
      staged,
      end_of,
      start_of,
      lookups_of,
      pause_of,
    };

    /// No stages yet.
    fn new(alloc: Global) -> Self
        ensures { result ≡ no_stages }
    {
        Stages {
            lookups: Vec::new(alloc),
            stages: Vec::new(alloc),
        }
    }

    /// Adds the next stage, before a pause.
    fn push(
        &mut self,
        alloc: Global,
        gsub: &ChosenTable<'_>,
        features: &[FeatureMap],
        required_stage: usize,
        pause: Option<u32>,
    ) -> Result<(), ShapeError>
        ensures ok { OnOk result (self.new
            ≡ with_stage gsub.now features.now required_stage self.old pause) }
        ensures memory { IsOkUnless result ShapeError.Memory }
    {
        let stage = self.stages.len();
        append_gsub(
            alloc,
            gsub,
            features,
            required_stage,
            stage,
            &mut self.lookups,
        )?;
        let end = self.lookups.len();
        self.stages.push(StageMap { end, pause })?;
        Ok(())
    }

    /// The stages of these features: one before each pause, and one after the last. Refuses with
    /// `Memory` if a growth was refused.
    pub fn collect(
        alloc: Global,
        gsub: &ChosenTable<'_>,
        features: &[FeatureMap],
        required_stage: usize,
        pauses: &[Option<u32>],
    ) -> Result<Self, ShapeError>
        ensures ok { IfOk result (λ s. s ≡ staged gsub.now features.now required_stage pauses.now) }
        ensures memory { IsOkUnless result ShapeError.Memory }
    {
        let mut stages = Stages::new(alloc);
        for pause in pauses {
            stages.push(alloc, gsub, features, required_stage, *pause)?;
        }
        stages.push(alloc, gsub, features, required_stage, None)?;
        Ok(stages)
    }

    /// How many stages there are.
    pub fn count(&self) -> usize
        ensures { result ≡ length self.now.stages }
    {
        self.stages.len()
    }

    /// Where stage `i` ends.
    fn end(&self, i: usize) -> usize
        ensures { result ≡ end_of self.now i }
    {
        match self.stages.get(i) {
            Some(stage) => stage.end.min(self.lookups.len()),
            None => 0,
        }
    }

    /// Where stage `i` begins.
    fn start(&self, i: usize) -> usize
        ensures { result ≡ start_of self.now i }
    {
        let before = if i == 0 { 0 } else { self.end(i - 1) };
        before.min(self.end(i))
    }

    /// The lookups of stage `i`, in order of the table; none past the last stage.
    pub fn lookups(&self, i: usize) -> &[LookupMap]
        ensures { result.now ≡ lookups_of self.now i }
    {
        &self.lookups[self.start(i)..self.end(i)]
    }

    /// The number of the pause after stage `i`, if it has one.
    pub fn pause_after(&self, i: usize) -> Option<u32>
        ensures { result ≡ pause_of self.now i }
    {
        self.stages.get(i)?.pause
    }
}
