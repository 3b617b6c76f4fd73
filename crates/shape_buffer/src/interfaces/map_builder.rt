//! The list of requests that a plan is compiled from.
ghost use Rattle.std.specs.Prelude.{◌≡◌, OnOk, OnErr, IsOkUnless, string_bytes};
ghost use Rattle.std.specs.Option.{option_map};

use crate::buffer::{Language, Script, ShapeError, hb_tag_t};
use crate::interfaces::layout::hb_ot_layout_t;
use crate::interfaces::map_request::{F_GLOBAL, MapRequest, TableIndex, hb_ot_map_feature_flags_t};
use std::alloc::Global;
use std::marker::Model;

/// The requests of a plan in order, the language of its texts, and the scripts that the layout
/// engine chose for it.
#[derive(Drop)]
pub struct hb_ot_map_builder_t<'a> {
    requests: Vec<MapRequest>,
    is_simple: bool,
    language: Option<&'a Language>,
    gsub_script: Option<hb_tag_t>,
    gpos_script: Option<hb_tag_t>,
}

impl<'a> Model for hb_ot_map_builder_t<'a> {
    ghost use Rattle.std.specs.Prelude.{string_bytes};
    ghost use Rattle.std.specs.Option.{option_map};
    ghost use Rattle.shape_buffer.specs.MapBuilder.{Builder};

    ghost Value = { Builder };

    ghost view = { λ b. record {
      requests = b.requests.items;
      is_simple = b.is_simple;
      language = option_map (λ language. string_bytes language.now.0) b.language;
      gsub_script = b.gsub_script;
      gpos_script = b.gpos_script;
    } };
}

impl<'a> hb_ot_map_builder_t<'a> {
    ghost use Rattle.shape_buffer.specs.MapBuilder;

    /// A builder without requests, for texts of this script and language. Asks the engine which
    /// scripts it takes.
    pub fn new<F, M: hb_ot_layout_t<F>>(
        alloc: Global,
        face: &F,
        script: Option<Script>,
        language: Option<&'a Language>,
    ) -> Self
        ensures { let name = option_map (λ l. string_bytes l.now.0) language.entry in
            result ≡ MapBuilder.new_builder name ((M.layout face.now).chosen_script script name) }
    {
        hb_ot_map_builder_t {
            requests: Vec::new(alloc),
            is_simple: true,
            language,
            gsub_script: M::chosen_script(face, script, language, TableIndex::GSUB),
            gpos_script: M::chosen_script(face, script, language, TableIndex::GPOS),
        }
    }

    /// The requests, in the order in which they were made.
    pub fn requests(&self) -> &[MapRequest]
        ensures { result.now ≡ self.now.requests }
    {
        self.requests.as_slice()
    }

    /// Whether nobody but the planner asks for features: begins true, and is false if a shaper's
    /// hook collects features or the user asks for some.
    pub fn is_simple(&self) -> bool
        ensures { result ≡ self.now.is_simple }
    {
        self.is_simple
    }

    /// Sets what `is_simple` returns.
    pub fn set_simple(&mut self, is_simple: bool)
        ensures { self.new ≡ record self.old { is_simple = is_simple } }
    {
        self.is_simple = is_simple;
    }

    /// The language of the texts, if it is known, by which an engine chooses a language system.
    pub fn language(&self) -> Option<&'a Language>
        ensures { option_map (λ language. string_bytes language.now.0) result ≡ self.now.language }
    {
        self.language
    }

    /// Makes room for so many more requests, so that making them isn't refused. Changes nothing
    /// that is seen. Refuses with `Memory` if a growth was refused.
    pub fn reserve(&mut self, additional: usize) -> Result<(), ShapeError>
        ensures same { self.new ≡ self.old }
        ensures memory { IsOkUnless result ShapeError.Memory }
    {
        self.requests.reserve(additional)?;
        Ok(())
    }

    /// Asks for a feature. `value` is what it is set to: 0 switches a feature off, 1 switches it
    /// on; a greater value picks an alternate. Refuses with `Memory` if a growth was refused; a
    /// refused call changes nothing.
    pub fn add_feature(
        &mut self,
        tag: hb_tag_t,
        flags: hb_ot_map_feature_flags_t,
        value: u32,
    ) -> Result<(), ShapeError>
        ensures ok { OnOk result (self.new
            ≡ MapBuilder.with_request self.old (MapBuilder.feature tag flags value)) }
        ensures same { OnErr result (self.new ≡ self.old) }
        ensures memory { IsOkUnless result ShapeError.Memory }
    {
        self.requests
            .push(MapRequest::Feature { tag, flags, value })?;
        Ok(())
    }

    /// Asks for a feature over the whole text: `add_feature` with `F_GLOBAL` among the flags.
    /// Refuses as `add_feature` does.
    pub fn enable_feature(
        &mut self,
        tag: hb_tag_t,
        flags: hb_ot_map_feature_flags_t,
        value: u32,
    ) -> Result<(), ShapeError>
        ensures ok { OnOk result (self.new
            ≡ MapBuilder.with_request self.old (MapBuilder.feature_on tag flags value)) }
        ensures same { OnErr result (self.new ≡ self.old) }
        ensures memory { IsOkUnless result ShapeError.Memory }
    {
        self.add_feature(tag, F_GLOBAL | flags, value)
    }

    /// Switches a feature off over the whole text: `add_feature` with value 0 and `F_GLOBAL`.
    /// Refuses as `add_feature` does.
    pub fn disable_feature(&mut self, tag: hb_tag_t) -> Result<(), ShapeError>
        ensures ok { OnOk result (self.new
            ≡ MapBuilder.with_request self.old (MapBuilder.feature_off tag)) }
        ensures same { OnErr result (self.new ≡ self.old) }
        ensures memory { IsOkUnless result ShapeError.Memory }
    {
        self.add_feature(tag, F_GLOBAL, 0)
    }

    /// Asks for a pause of substitution between the features before and those after. If it has a
    /// number, the shaper's hook `pause` is called with it there. Refuses with `Memory` if a growth
    /// was refused; a refused call changes nothing.
    pub fn add_gsub_pause(&mut self, number: Option<u32>) -> Result<(), ShapeError>
        ensures ok { OnOk result (self.new
            ≡ MapBuilder.with_request self.old (MapBuilder.pause number)) }
        ensures same { OnErr result (self.new ≡ self.old) }
        ensures memory { IsOkUnless result ShapeError.Memory }
    {
        self.requests.push(MapRequest::Pause(number))?;
        Ok(())
    }

    /// Asks for a pause without a number, between the features before and those after, if the font
    /// lacks a feature: where the language systems that the engine chose list it, there is no
    /// pause. Refuses with `Memory` if a growth was refused; a refused call changes nothing.
    pub fn add_gsub_pause_unless(&mut self, tag: hb_tag_t) -> Result<(), ShapeError>
        ensures ok { OnOk result (self.new
            ≡ MapBuilder.with_request self.old (MapBuilder.pause_unless tag)) }
        ensures same { OnErr result (self.new ≡ self.old) }
        ensures memory { IsOkUnless result ShapeError.Memory }
    {
        self.requests.push(MapRequest::PauseUnless(tag))?;
        Ok(())
    }

    /// The script that the engine chose for a table.
    pub fn chosen_script(&self, table: TableIndex) -> Option<hb_tag_t>
        ensures { result ≡ MapBuilder.chosen_script self.now table }
    {
        match table {
            TableIndex::GSUB => self.gsub_script,
            TableIndex::GPOS => self.gpos_script,
        }
    }
}
