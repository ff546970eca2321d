//! What holds of the list of all parts.
ghost use Rattle.home_queues.specs.Laws.{StillListed};

/// A list whose parts were used by workers, and are still the same parts, is one that `HomeQueues::close` takes.
pub fn still_listed()
    ensures { StillListed }
{}
