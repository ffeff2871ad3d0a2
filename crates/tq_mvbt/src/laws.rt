//! Laws of every tree, in terms of points, lists and lives: functions with an empty body, whose contract is the law.

ghost use Rattle.std.specs.Prelude.{ℕ, List};
ghost use Rattle.tq_mvbt.specs.declared.root.Root.{Root};
ghost use Rattle.tq_mvbt.specs.NodeState.{NodeState};
ghost use Rattle.tq_mvbt.specs.TreeState.{IsTree};
ghost use Rattle.tq_mvbt.specs.Tiling.{IsTiling};

/// Every tree tiles keys and versions. Each point lies in the region of exactly one leaf, and a leaf lists exactly the
/// keys whose life meets its region. Each node but the root of a version has at least 5 live entries then. A leaf links
/// exactly the leaves whose life ended when its own began.
pub fn trees_tile()
    ensures { (version : ℕ) (nodes : List NodeState) (roots : List Root) → IsTree version nodes roots → IsTiling nodes roots }
{}
