//! Laws of clusters and their flags: each function has a law as its contract, and nothing to do.
ghost use Rattle.std.specs.Prelude.{Bool, List};
ghost use Rattle.shape_items.specs.ClusterOrder.{IsOrderedFor};
ghost use Rattle.shape_items.specs.Clusters.{clusters};
ghost use Rattle.shape_items.specs.Flags.{HasOneSetOfFlags, ClustersHaveOneSetOfFlags};
ghost use Rattle.shape_items.specs.Items.{Item};

/// All glyphs of one cluster have one set of flags, wherever they stand, if clusters are in order
/// and neighbours in one cluster have the same flags. Both are promised of a run.
pub fn clusters_have_one_set_of_flags()
    ensures { (backward : Bool) (items : List Item) → IsOrderedFor backward (clusters items)
        → HasOneSetOfFlags items → ClustersHaveOneSetOfFlags items }
{}
