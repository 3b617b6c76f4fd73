//! A compiled map.
ghost use Rattle.std.specs.Prelude.{◌≡◌};
ghost use Rattle.layout_map.specs.Tagged.{tagged};

use crate::chosen::ChosenTable;
use crate::features::{FeatureMap, allot, mask};
use crate::lookups::{LookupMap, append_gpos};
use crate::settings::collect;
use crate::stages::Stages;
use shape_buffer::interfaces::{MapRequest, TableIndex};
use shape_buffer::{ShapeError, hb_mask_t, hb_tag_t};
use std::alloc::Global;
use std::marker::Model;

/// The first feature with a tag.
fn with_tag(features: &[FeatureMap], tag: u32) -> Option<FeatureMap>
    ensures { result ≡ tagged tag features.now }
{
    for feature in features {
        if feature.tag == tag {
            return Some(*feature);
        }
    }
    None
}

/// The requests of a plan compiled for a font: the mask of each feature, the stages of lookups of
/// `GSUB`, and the lookups of `GPOS`.
#[derive(Drop)]
pub struct hb_ot_map_t {
    features: Vec<FeatureMap>,
    global: u32,
    gsub: Stages,
    gpos: Vec<LookupMap>,
}

impl Model for hb_ot_map_t {
    ghost use Rattle.layout_map.specs.Map.{OtMap};

    ghost Value = { OtMap };

    ghost view = { λ m. record {
      features = m.features.items;
      global = m.global;
      gsub = m.gsub;
      gpos = m.gpos.items;
    } };
}

impl hb_ot_map_t {
    ghost use Rattle.std.specs.Prelude.{IfOk, IsOkUnless};
    ghost use Rattle.layout_map.specs.Map.{
      compiled,
      map_meaning,
      feature_of,
      needs_fallback_of,
      stage_of,
    };
    ghost use Rattle.layout_map.specs.Stages.{lookups_of};

    /// Compiles the requests of a plan, in order, for the tables of a font. Refuses with `Memory`
    /// alone, if a growth was refused.
    pub fn compile(
        alloc: Global,
        gsub: &ChosenTable<'_>,
        gpos: &ChosenTable<'_>,
        requests: &[MapRequest],
    ) -> Result<Self, ShapeError>
        ensures ok { IfOk result (λ map. map ≡ compiled gsub.now gpos.now requests.now) }
        ensures memory { IsOkUnless result ShapeError.Memory }
    {
        let (mut settings, mut pauses) = (Vec::new(alloc), Vec::new(alloc));
        collect(gsub, gpos, &mut settings, &mut pauses, requests)?;
        let mut features = Vec::new(alloc);
        let room = allot(gsub, gpos, &mut features, settings.as_slice())?;
        let stages = Stages::collect(
            alloc,
            gsub,
            features.as_slice(),
            room.required_stage,
            pauses.as_slice(),
        )?;
        let mut lookups = Vec::new(alloc);
        append_gpos(alloc, gpos, features.as_slice(), &mut lookups)?;
        Ok(hb_ot_map_t {
            features,
            global: room.global,
            gsub: stages,
            gpos: lookups,
        })
    }

    /// The feature with a tag.
    fn feature(&self, tag: u32) -> Option<FeatureMap>
        ensures { result ≡ feature_of self.now tag }
    {
        with_tag(self.features.as_slice(), tag)
    }

    /// The mask of the features that are on for every item.
    pub fn global_mask(&self) -> hb_mask_t
        ensures { result ≡ (map_meaning self.now).global_mask }
    {
        mask(self.global)
    }

    /// The mask that sets a feature to 1; 0 if the map lacks it.
    pub fn one_mask(&self, tag: hb_tag_t) -> hb_mask_t
        ensures { result ≡ (map_meaning self.now).one_mask tag }
    {
        match self.feature(tag.0) {
            Some(feature) => feature.one_mask(),
            None => 0,
        }
    }

    /// The bits of a mask that hold a feature's value, and how far the value is shifted there;
    /// twice 0 if the map lacks it.
    pub fn mask(&self, tag: hb_tag_t) -> (hb_mask_t, u32)
        ensures { result ≡ (map_meaning self.now).mask tag }
    {
        match self.feature(tag.0) {
            Some(feature) => (feature.mask(), feature.shift()),
            None => (0, 0),
        }
    }

    /// The index of a feature in the list of a table, if the table has it.
    pub fn feature_index(&self, table: TableIndex, tag: hb_tag_t) -> Option<u16>
        ensures { result ≡ (map_meaning self.now).feature_index table tag }
    {
        let feature = self.feature(tag.0)?;
        match table {
            TableIndex::GSUB => feature.gsub,
            TableIndex::GPOS => feature.gpos,
        }
    }

    /// The stage of a feature in `GSUB`, if the map has the feature.
    pub fn feature_stage(&self, tag: hb_tag_t) -> Option<usize>
        ensures { result ≡ stage_of self.now tag.0 }
    {
        match self.feature(tag.0) {
            Some(feature) => Some(feature.stage),
            None => None,
        }
    }

    /// Whether a feature is in the map though no table has it.
    pub fn needs_fallback(&self, tag: hb_tag_t) -> bool
        ensures { result ≡ needs_fallback_of self.now tag.0 }
    {
        match self.feature(tag.0) {
            Some(feature) => feature.needs_fallback,
            None => false,
        }
    }

    /// How many stages substitution has, with a pause after each.
    pub fn stages(&self) -> usize
        ensures { result ≡ (map_meaning self.now).stages }
    {
        self.gsub.count()
    }

    /// The number of the pause after stage `i`, if it has one.
    pub fn pause_after(&self, i: usize) -> Option<u32>
        ensures { result ≡ (map_meaning self.now).pause_after i }
    {
        self.gsub.pause_after(i)
    }

    /// The lookups of stage `i` of substitution, each once, in order of the table; none past the
    /// last stage.
    pub fn gsub_lookups(&self, i: usize) -> &[LookupMap]
        ensures { result.now ≡ lookups_of self.now.gsub i }
    {
        self.gsub.lookups(i)
    }

    /// The lookups of positioning, each once, in order of the table.
    pub fn gpos_lookups(&self) -> &[LookupMap]
        ensures { result.now ≡ self.now.gpos }
    {
        self.gpos.as_slice()
    }
}
