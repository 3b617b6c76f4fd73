//! What preparing and masks preserve, as laws over all runs.
ghost use Rattle.shape_prepare.specs.ClusterPoint.{PreparingPreservesOrder, PreparingPreservesFirsts};
ghost use Rattle.shape_prepare.specs.PreservedCharacters.{PreparingPreservesCharacters};
ghost use Rattle.shape_prepare.specs.PreparedPoint.{PreparingPrepares};
ghost use Rattle.shape_prepare.specs.Preservation.{PreparingPreservesFlags};
ghost use Rattle.shape_prepare.specs.Preservation.{MasksPreserveClusters, MasksPreserveFlags};

/// Each step preserves the flags of glyphs, if the plan's masks have none and the shaper's hook
/// preserves them.
pub fn preparing_preserves_flags()
    ensures { PreparingPreservesFlags }
{}

/// At the monotone levels, if the shaper's hook preserves clusters, clusters that never fall come
/// out in order: never rising if the native order reversed the list, as the buffer's direction
/// tells, else never falling. None is new, and flags and level stay.
pub fn preparing_preserves_order()
    ensures { PreparingPreservesOrder }
{}

/// At level MONOTONE_GRAPHEMES, if the shaper's hook preserves clusters and those of the text
/// never fall, each cluster of the prepared text is that of the first character of one of the
/// text's graphemes.
pub fn preparing_preserves_firsts()
    ensures { PreparingPreservesFirsts }
{}

/// Each item's mark, by its category, and ccc are those of its character once a text is prepared,
/// if the shaper's hook leaves them so.
pub fn preparing_prepares()
    ensures { PreparingPrepares }
{}

/// The prepared text has the characters of the text, if no dotted circle goes in, the list isn't
/// reversed, each character is its own form for the direction, and a given hook leaves characters.
pub fn preparing_preserves_characters()
    ensures { PreparingPreservesCharacters }
{}

/// Every step of masks preserves clusters at the monotone levels, if the hook does. Every one
/// preserves the flags of glyphs, if the hook does and no mask of the plan or of its features has
/// the bit of a flag.
pub fn masks_preserve_clusters_and_flags()
    ensures clusters { MasksPreserveClusters }
    ensures flags { MasksPreserveFlags }
{}
