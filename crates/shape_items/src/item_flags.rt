//! The defined flags of an item, for those who break lines and join texts.
//!
//! After a run each glyph of a cluster has the same flags, so those of one glyph tell of its
//! cluster.
ghost use Rattle.std.specs.Prelude.{◌≡◌};
ghost use Rattle.shape_common.specs.FlagNames.{UNSAFE_TO_BREAK, UNSAFE_TO_CONCAT, SAFE_TO_INSERT_TATWEEL};
ghost use Rattle.shape_items.specs.PreservesFlags.{has_flag};

use crate::items::{SAFE_TO_INSERT_TATWEEL, UNSAFE_TO_BREAK, UNSAFE_TO_CONCAT, hb_glyph_info_t};

impl hb_glyph_info_t {
    /// Whether a line mustn't be broken before this glyph's cluster unless both sides are shaped
    /// again.
    pub fn unsafe_to_break(&self) -> bool
        ensures { result ≡ has_flag UNSAFE_TO_BREAK self.now }
    {
        self.mask & UNSAFE_TO_BREAK != 0
    }

    /// Whether texts mustn't be joined before this glyph's cluster unless both are shaped again.
    /// Off unless the run was asked for it, by `PRODUCE_UNSAFE_TO_CONCAT`.
    pub fn unsafe_to_concat(&self) -> bool
        ensures { result ≡ has_flag UNSAFE_TO_CONCAT self.now }
    {
        self.mask & UNSAFE_TO_CONCAT != 0
    }

    /// Whether an elongation may be put in before this glyph's cluster.
    pub fn safe_to_insert_tatweel(&self) -> bool
        ensures { result ≡ has_flag SAFE_TO_INSERT_TATWEEL self.now }
    {
        self.mask & SAFE_TO_INSERT_TATWEEL != 0
    }
}
