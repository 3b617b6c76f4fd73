//! What lookups of OpenType layout match, in substitution (`GSUB`) and in positioning (`GPOS`).
//!
//! [`skipping`] says which glyphs a lookup sees, [`seeking`] finds the next glyph that is looked
//! for, [`input`] what a rule or a ligature matches, [`spans`] what stands around that, [`rules`]
//! and [`formats`] read the rules of context, [`glance`] refuses most of them at once ([`around`]
//! looks as far as a rule asks), [`found`] has the first rule that matches, and [`nesting`] the
//! lookups that it names. [`tried`] and [`reaching`] say how far searches in vain looked. [`work`]
//! says what a lookup is charged for, by [`sets`] of rules, [`tally`] of each rule and [`passing`]
//! of glyphs beside a place, and [`nearest`] looks at the nearest ones first; [`beside`] charges
//! subtables of positioning, which share those glyphs, and [`sought`] a lookup of context while it
//! looks for the rule that applies: `set_rules` in the sets of a subtable, `scanning` past the
//! rules of a set that are refused at once; `remembered` has what the rules before passed over.
//! [`ligatures`] charges those of a set while it sifts them, and [`ligature_sets`] has what is
//! stored of sets, [`whole_rules`] what is stored of rules of format 3.
//! [`firsts`] has the glyphs that subtables may begin at, and [`indexed`] a lookup with those of
//! its own. [`would`] says whether context would match glyphs that stand alone. All are functions
//! of the bytes of the font and of the list of items: nothing is changed. Any bytes are taken.
#![tactic(auto)]
#![allow(non_camel_case_types)]

pub mod around;
pub mod beside;
pub mod firsts;
pub mod foreseen;
pub mod formats;
pub mod found;
pub mod glance;
pub mod indexed;
pub mod input;
pub mod ligature_sets;
pub mod ligatures;
pub mod lookup;
pub mod nearest;
pub mod nesting;
pub mod passing;
pub mod reaching;
mod remembered;
pub mod rules;
mod scanning;
pub mod seeking;
mod set_rules;
pub mod sets;
pub mod skipping;
pub mod sought;
pub mod spans;
pub mod tally;
pub mod tried;
pub mod whole_rules;
pub mod work;
pub mod worked;
pub mod would;
