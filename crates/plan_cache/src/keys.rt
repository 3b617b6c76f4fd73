//! What a plan is kept for, and the search for it.
ghost use Rattle.std.specs.Prelude.{◌≡◌, ◌↔◌, length, IsTrue, IfSome, IfNone, IfOk, IfErr, OnErr, string_bytes};
ghost use Rattle.std.specs.Option.{option_map};
ghost use Rattle.shape_buffer.specs.Guess.{guessed_direction, guessed_script};
ghost use Rattle.shape_plan.specs.Plan.{Fits};
ghost use Rattle.plan_cache.specs.Keys.{IsFor, IsKeptAt, NoneKept, IsKeptLast};
ghost use Rattle.plan_cache.specs.Worked.Keys.{WorkedKeys};

use shape_buffer::buffer::{Direction, Feature, Language, Script, ShapeError, UnicodeBuffer};
use shape_buffer::interfaces::hb_unicode_funcs_t;
use shape_plan::hb_ot_shape_plan_t;
use std::alloc::Global;

/// All that a plan depends on. `face` is the caller's number of the face; at other coordinates of a
/// variable font it is another face, with a number of its own.
#[derive(Drop, Debug)]
pub struct PlanKey {
    pub face: u32,
    pub direction: Direction,
    pub script: Option<Script>,
    pub language: Option<Language>,
    pub features: Vec<Feature>,
}

/// A plan, and what it was made for.
#[derive(Drop)]
pub struct KeptPlan<P> {
    pub key: PlanKey,
    pub plan: P,
}

/// Whether two languages have one name, or there is none.
fn same_language(kept: Option<&Language>, asked: Option<&Language>) -> bool
    ensures { IsTrue result ↔ (option_map (λ l. string_bytes l.now.0) kept.entry
        ≡ option_map (λ l. string_bytes l.now.0) asked.entry) }
{
    match (kept, asked) {
        (Some(kept), Some(asked)) => kept.0.as_str() == asked.0.as_str(),
        (None, None) => true,
        _ => false,
    }
}

/// Whether two features are the same.
fn same_feature(kept: &Feature, asked: &Feature) -> bool
    ensures { IsTrue result ↔ (kept.now ≡ asked.now) }
{
    kept == asked
}

/// Whether two lists of features are the same, in the same order.
#[tactic(auto, using(crate::proofs::ListLemmas::same_from_places, crate::proofs::ListLemmas::same_at))]
fn same_features(kept: &[Feature], asked: &[Feature]) -> bool
    ensures { IsTrue result ↔ (kept.now ≡ asked.now) }
{
    if kept.len() != asked.len() {
        return false;
    }
    for place in 0..kept.len() {
        if !same_feature(&kept[place], &asked[place]) {
            return false;
        }
    }
    true
}

/// A copy of a language.
fn copied(alloc: Global, language: Option<&Language>) -> Result<Option<Language>, ShapeError>
    ensures copy { IfOk result (λ copy. option_map (λ l. string_bytes l.0) copy
        ≡ option_map (λ l. string_bytes l.now.0) language.entry) }
    ensures memory { IfErr result (λ e. e ≡ ShapeError.Memory) }
{
    match language {
        Some(language) => Ok(Some(Language(String::from_str(alloc, language.0.as_str())?))),
        None => Ok(None),
    }
}

impl PlanKey {
    /// What a plan for a text has to be made for: direction and script as guessing would set them,
    /// the language of the text, these features and this face. Refuses with `Memory` alone.
    pub fn of_text<U: hb_unicode_funcs_t>(
        alloc: Global,
        face: u32,
        features: &[Feature],
        text: &UnicodeBuffer,
    ) -> Result<PlanKey, ShapeError>
        ensures key { IfOk result (λ key. IsFor U.unicode key face features.now text.now) }
        ensures memory { IfErr result (λ e. e ≡ ShapeError.Memory) }
    {
        let buffer = text.as_inner();
        let script = buffer.guessed_script::<U>();
        let direction = buffer.direction_by::<U>(script);
        let language = copied(alloc, text.language())?;
        let features = Vec::from_slice(alloc, features)?;
        Ok(PlanKey {
            face,
            direction,
            script,
            language,
            features,
        })
    }

    /// Whether a plan that was made for this serves a text, whose direction and script are these as
    /// guessing would set them.
    fn is_for_guessed<U: hb_unicode_funcs_t>(
        &self,
        face: u32,
        features: &[Feature],
        text: &UnicodeBuffer,
        direction: Direction,
        script: Option<Script>,
    ) -> bool
        requires direction { direction ≡ guessed_direction U.unicode text.now }
        requires script { script ≡ guessed_script U.unicode text.now }
        ensures { IsTrue result ↔ IsFor U.unicode self.now face features.now text.now }
    {
        self.face == face
            && direction == self.direction
            && script == self.script
            && same_language(self.language.as_ref(), text.language())
            && same_features(self.features.as_slice(), features)
    }

    /// Whether a plan that was made for this serves a text over a face with features.
    pub fn is_for<U: hb_unicode_funcs_t>(
        &self,
        face: u32,
        features: &[Feature],
        text: &UnicodeBuffer,
    ) -> bool
        ensures { IsTrue result ↔ IsFor U.unicode self.now face features.now text.now }
    {
        let buffer = text.as_inner();
        let script = buffer.guessed_script::<U>();
        let direction = buffer.direction_by::<U>(script);
        self.is_for_guessed::<U>(face, features, text, direction, script)
    }
}

/// The place of the first plan that was made for such a text: for its direction, its script and its
/// language, these features and this face. Direction and script are guessed once for all plans.
pub fn find_plan<U: hb_unicode_funcs_t, P>(
    plans: &[KeptPlan<P>],
    face: u32,
    features: &[Feature],
    text: &UnicodeBuffer,
) -> Option<usize>
    ensures found { IfSome result (λ place. IsKeptAt U.unicode plans.now place face
        features.now text.now) }
    ensures first { IfSome result (λ place. NoneKept U.unicode plans.now place face
        features.now text.now) }
    ensures nowhere { IfNone result (NoneKept U.unicode plans.now (length plans.now) face
        features.now text.now) }
{
    let buffer = text.as_inner();
    let script = buffer.guessed_script::<U>();
    let direction = buffer.direction_by::<U>(script);
    for place in 0..plans.len() {
        let key = &plans[place].key;
        if key.is_for_guessed::<U>(face, features, text, direction, script) {
            return Some(place);
        }
    }
    None
}

/// Keeps a plan that was made for such a text, after the others, and returns its place. Refuses
/// with `Memory` alone, and keeps nothing then.
pub fn keep_plan<U: hb_unicode_funcs_t, P: Drop>(
    alloc: Global,
    plans: &mut Vec<KeptPlan<P>>,
    face: u32,
    features: &[Feature],
    text: &UnicodeBuffer,
    plan: P,
) -> Result<usize, ShapeError>
    ensures kept { IfOk result (λ place. IsKeptLast U.unicode plans.old.items plans.new.items
        place face features.now text.now plan) }
    ensures refused { OnErr result (plans.new.items ≡ plans.old.items) }
    ensures memory { IfErr result (λ e. e ≡ ShapeError.Memory) }
{
    let key = PlanKey::of_text::<U>(alloc, face, features, text)?;
    let place = plans.as_slice().len();
    plans.push(KeptPlan { key, plan })?;
    Ok(place)
}

/// A plan that is kept under its own direction and script fits every text that it is found for.
/// Does nothing: it tells this to those who have found it.
pub fn found_plan_fits<U: hb_unicode_funcs_t, S, P, D>(
    kept: &KeptPlan<hb_ot_shape_plan_t<'_, S, P, D>>,
    face: u32,
    features: &[Feature],
    text: &UnicodeBuffer,
)
    ensures { kept.now.plan.direction ≡ kept.now.key.direction
        → kept.now.plan.script ≡ kept.now.key.script
        → IsFor U.unicode kept.now.key face features.now text.now
        → Fits U.unicode kept.now.plan text.now }
{}

/// Keys and texts that were compared by hand. Does nothing.
pub fn keys_meet_worked_cases()
    ensures { WorkedKeys }
{}
