//! The Unicode functions that shaping asks for, over the whole Unicode Character Database.
//!
//! [`UnicodeDatabase`] is the type to give to a shaper as its Unicode functions. Categories,
//! splits, composites, scripts and properties are those of the database (UAX 44), looked up in the
//! tables of the kit; where shaping differs from the database, as HarfBuzz does, a short table says
//! so, in the module that its function stands in.
//!
//! The contracts say each result in the words of the database (`specs/Meaning.antt`), and the laws
//! of [`hb_unicode_funcs_t`](shape_buffer::interfaces::hb_unicode_funcs_t) are proved of all
//! characters: they are computed over the rows of the database.
//!
//! Facts computed over a short table are premises of the laws that need them
//! (`specs/TableFacts.antt`): so a wrong entry of the table is refused with a message that names
//! the fact.
#![tactic(auto)]
#![allow(non_camel_case_types)]

mod category;
mod ccc;
mod early_categories;
mod hangul;
mod hidden;
pub mod laws;
mod mirror;
mod mirror_pairs;
mod script;
mod script_direction;
mod space;
mod split;
mod unicode_database;
mod vertical;

pub use category::category_from;
pub use space::space_of;
pub use unicode_database::UnicodeDatabase;
