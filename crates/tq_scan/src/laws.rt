//! Laws of windows and their parts: functions with an empty body, whose contract is the law.

ghost use Rattle.std.specs.Prelude.{List};
ghost use Rattle.tq_mvbt.specs.NodeState.{NodeState};
ghost use Rattle.tq_scan.specs.declared.window.Part.{Part};
ghost use Rattle.tq_scan.specs.declared.window.Window.{Window};
ghost use Rattle.tq_scan.specs.Cuts.{AreTiles};
ghost use Rattle.tq_scan.specs.Laws.{KeysAreInOnePart};

/// If parts tile a window, as those of `cut` do, each key that is found in the window is found in exactly one part.
pub fn keys_are_in_one_part()
    ensures { (nodes : List NodeState) (w : Window) (parts : List Part) → AreTiles w parts → KeysAreInOnePart nodes w parts }
{}
