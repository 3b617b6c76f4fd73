//! The definitions, computed on cases that were worked out by hand. The function has such cases as
//! its contract, and nothing to do.
ghost use Rattle.cluster_order.specs.Worked.Ordered.{WorkedOrdered};

/// Clusters put in order: a sign before its letter, both directions, each level, and flags.
pub fn ordering_meets_worked_cases()
    ensures { WorkedOrdered }
{}
