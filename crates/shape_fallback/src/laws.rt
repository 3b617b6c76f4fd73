//! Laws of the fallback steps: each function has laws as its contract, and nothing to do.
//!
//! A number is exact already if the last of its sums fits, whatever wraps before it. Only what is
//! halved, divided or compared must fit too.
ghost use Rattle.std.specs.Prelude.{Option};
ghost use Rattle.shape_common.specs.Face.{FaceMeaning};
ghost use Rattle.shape_buffer.specs.Preservation.{IsClusterPreserving, IsFlagPreserving};
ghost use Rattle.shape_common.specs.Unicode.{UnicodeMeaning};
ghost use Rattle.shape_common.specs.declared.text_types.Direction.{Direction};
ghost use Rattle.shape_common.specs.declared.text_types.Script.{Script};
ghost use Rattle.shape_plan.specs.declared.decisions.Decisions.{Decisions};
ghost use Rattle.shape_fallback.specs.Exact.{ExactMarks, ExactRound, ExactSpaces};
ghost use Rattle.shape_fallback.specs.Preservation.{EachFallback};

/// Each fallback step preserves the order of clusters, brings no new one, and sets a defined flag
/// only together with the scratch flag that says so.
pub fn fallback_steps_preserve_clusters_and_flags()
    ensures clusters { (unicode : UnicodeMeaning) (face : FaceMeaning) (direction : Direction)
        (script : Option Script) (decisions : Decisions)
        → EachFallback IsClusterPreserving unicode face direction script decisions }
    ensures flags { (unicode : UnicodeMeaning) (face : FaceMeaning) (direction : Direction)
        (script : Option Script) (decisions : Decisions)
        → EachFallback IsFlagPreserving unicode face direction script decisions }
{}

/// The numbers of one mark, and those that the marks of a base hand on, are the exact ones if they
/// fit an i32, whatever wraps on the way to them.
pub fn marks_are_exact_where_they_fit()
    ensures one { ExactMarks }
    ensures round { ExactRound }
{}

/// A space's part of the em square is the exact one along lines of either kind.
pub fn spaces_are_exact()
    ensures { ExactSpaces }
{}
