//! The buffer as lookups edit it: with a gap in its storage, so that a walk with many edits takes
//! time in step with the list.
//!
//! `insert` and `remove` of [`hb_buffer_t`](shape_buffer::hb_buffer_t) move all items that follow:
//! n ligatures in a text take time in step with n². A [`GapBuffer`] takes the items over while
//! lookups walk, and has them in storage with a gap at the place of the last edit; an edit moves
//! the gap to its own place, so a walk from one end to the other moves each item a few times at
//! most. It is seen as the same record `Buffer`, and its calls leave what the calls of a buffer
//! with the same names leave. [`ItemList`] is what matching reads: the items of either buffer.
#![tactic(auto)]
#![allow(non_camel_case_types)]

mod gap;
mod gap_buffer;
mod gap_items;
mod item_list;
pub mod worked;

pub use gap_buffer::GapBuffer;
pub use item_list::ItemList;
