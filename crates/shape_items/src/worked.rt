//! The definitions, computed on cases that were worked out by hand. Each function has such cases as
//! its contract, and nothing to do.
ghost use Rattle.shape_items.specs.Worked.Marking.{TatweelWorked};
ghost use Rattle.shape_items.specs.Worked.Merging.{MergingWorked};
ghost use Rattle.shape_items.specs.Worked.Words.{WordsWorked};

/// The words of an item: a new one, one with each of its properties, and the numbers of categories.
pub fn words_meet_worked_cases()
    ensures { WordsWorked }
{}

/// Marking a span safe to insert tatweel: clusters that rise and fall, spans of one item, and what
/// is asked for.
pub fn tatweel_meets_worked_cases()
    ensures { TatweelWorked }
{}

/// What a merging writes beside its span: on both sides, in the least cluster, by each level.
pub fn merging_meets_worked_cases()
    ensures { MergingWorked }
{}
