//! Counts that stay at the last value of their type.

ghost use Rattle.std.specs.Prelude.{◌≡◌};
ghost use Rattle.realm_io.specs.Counts.{count_if};

/// A count after one more, where there is one more.
pub(crate) fn count_if(more: bool, count: u64) -> u64
    ensures { result ≡ count_if more count }
{
    if more { count.saturating_add(1) } else { count }
}
