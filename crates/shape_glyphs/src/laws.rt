//! What the steps preserve of a buffer, as laws that spare callers proofs.
ghost use Rattle.shape_glyphs.specs.Exact.{ExactAdvances, ExactMarkWidths};
ghost use Rattle.shape_glyphs.specs.Preservation.{StepsPreserve};
ghost use Rattle.shape_glyphs.specs.OneTable.{EachRunsOneTable};
ghost use Rattle.shape_glyphs.specs.SubstitutionPreservation.{SubstitutionPreservesClusters};
ghost use Rattle.shape_glyphs.specs.SubstitutionPreservation.{SubstitutionPreservesFlags};

/// Every step of making and substituting glyphs preserves clusters at the monotone levels, if the
/// lookups and the hooks do, and the flags of glyphs, if these do. Does nothing: a caller's proof
/// cites it.
pub fn substitution_preserves_clusters_and_flags()
    ensures clusters { SubstitutionPreservesClusters }
    ensures flags { SubstitutionPreservesFlags }
{}

/// Each step of positions and of the end of a run preserves the order of clusters and the flags of
/// glyphs, if the lookups and hooks of the run do. The reversal inverts the order of clusters if
/// the buffer's direction is backward. Each of them that asks neither lookups nor hooks leaves as
/// many positions as items, if there were before. Does nothing: a caller's proof cites it.
pub fn steps_preserve_clusters_and_flags()
    ensures { StepsPreserve }
{}

/// Of `GPOS` and `kerx` the steps of positioning call the one that the plan's decisions say, and
/// no other: they are the same whatever the other table does. So the two never both run. Does
/// nothing.
pub fn one_table_runs()
    ensures { EachRunsOneTable }
{}

/// Advances are those that the face returns, and down a line each offset is the exact difference
/// to the origin of vertical lines if that fits an i32. Does nothing.
pub fn advances_are_exact_where_they_fit()
    ensures { ExactAdvances }
{}

/// A mark that loses its advances has none, and one that is adjusted is moved back by exactly
/// these, if the difference fits an i32. Does nothing.
pub fn mark_widths_are_exact_where_they_fit()
    ensures { ExactMarkWidths }
{}
