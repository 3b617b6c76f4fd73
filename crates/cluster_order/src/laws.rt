//! What putting clusters in order does to any list. Each function has laws as its contract, and
//! nothing to do.
ghost use Rattle.std.specs.Prelude.{◌≡◌, ℕ, Bool, List};
ghost use Rattle.std.specs.List.Sorted.{IsNonDecreasing};
ghost use Rattle.cluster_order.specs.Least.{least_ahead};
ghost use Rattle.cluster_order.specs.Ordered.{clusters_ordered, LeavesCount, LeavesOrdered};
ghost use Rattle.cluster_order.specs.Ordering.{IsBringingNoCluster, IsOrdering};
ghost use Rattle.shape_buffer.specs.Preservation.{IsClusterPreserving, IsFlagPreserving};
ghost use Rattle.shape_items.specs.Buffer.{Buffer};
ghost use Rattle.shape_items.specs.ClusterOrder.{PreservesClusters};

/// Of any list the clusters rise in the end; order is preserved both ways, no cluster is new, and a
/// list in order stays.
pub fn least_ahead_orders()
    ensures rises { (xs : List ℕ) → IsNonDecreasing (least_ahead xs) }
    ensures preserves { (xs : List ℕ) → PreservesClusters xs (least_ahead xs) }
    ensures same { (xs : List ℕ) → IsNonDecreasing xs → least_ahead xs ≡ xs }
{}

/// `order_clusters` puts clusters in order whatever they were, leaves a list in order as it is,
/// preserves order both ways, and flags, and the number of items.
pub fn ordering_orders()
    ensures orders { (backward : Bool) → IsOrdering backward (clusters_ordered backward) }
    ensures same { LeavesOrdered clusters_ordered }
    ensures clusters { (backward : Bool) → IsClusterPreserving (clusters_ordered backward) }
    ensures flags { (backward : Bool) → IsFlagPreserving (clusters_ordered backward) }
    ensures count { LeavesCount clusters_ordered }
{}

/// A step that preserves clusters brings none.
pub fn preserving_brings_none()
    ensures { (f : Buffer → Buffer) → IsClusterPreserving f → IsBringingNoCluster f }
{}
