//! Laws of meanings. Each function does nothing: its contract is the law.

ghost use Rattle.jc_meaning.specs.Laws.{NothingMeansEmpty, OrdersMeanTheSame, OneMoreMeans, MeaningsAreTidy, ClearingTakesDeps, TreesAreMeant, DroppedTreesAreMeanings, MeaningsAreTrees, OneTree, TreesConverge};

/// No operations mean the empty tree.
pub fn nothing_means_empty()
    ensures { NothingMeansEmpty }
{}

/// What operations mean doesn't depend on their order in the list.
pub fn orders_mean_the_same()
    ensures { OrdersMeanTheSame }
{}

/// Where a tree is what a set means, a derivation of one more operation, whose dependencies are in the set, leads to
/// what the set with it means.
pub fn one_more_means()
    ensures { OneMoreMeans }
{}

/// What a causally closed set means is tidy. Each identifier below a key or in its register is in the key's presence
/// set. A key with a presence set that isn't empty has a tag. In a list each key with a tag is linked.
pub fn meanings_are_tidy()
    ensures { MeaningsAreTidy }
{}

/// In what a causally closed set means, clearing a key takes exactly the given identifiers at the key and below it.
/// It leaves all else but empty presence sets as it was.
pub fn clearing_takes_deps()
    ensures { ClearingTakesDeps }
{}

/// In each network that is reached from a start, the tree of each replica is what the operations mean that it has
/// applied.
pub fn trees_are_meant()
    ensures { TreesAreMeant }
{}

/// Without its empty presence sets, that tree is the operations' meaning itself.
pub fn dropped_trees_are_meanings()
    ensures { DroppedTreesAreMeanings }
{}

/// The meaning of operations is the tree, without its empty presence sets, of each replica that has applied just these.
pub fn meanings_are_trees()
    ensures { MeaningsAreTrees }
{}

/// Operations mean one tree, but for empty presence sets.
pub fn one_tree()
    ensures { OneTree }
{}

/// In each network that is reached from a start, replicas that have applied the same operations have the same tree, but
/// for empty presence sets.
pub fn trees_converge()
    ensures { TreesConverge }
{}
