//! Unicode functions: answers for single characters beside the database's files and HarfBuzz, and
//! whole tables beside other sources; OpenType's tags of languages; the small tables of the program
//! `shapeline`, and what it prints.

mod answers;
mod callers;
mod characters;
mod comparing;
mod language_tags;
mod printed;
mod small_tables;
mod whole_tables;
