//! What holds of a queue of hints at each moment.
ghost use Rattle.free_engine.specs.HintLaws.{ListsChangeBySteps};

/// What a pass has put in and taken changes by nothing but its own pushes and pops.
pub fn lists_change_by_steps()
    ensures { ListsChangeBySteps }
{}
