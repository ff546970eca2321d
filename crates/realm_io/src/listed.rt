//! Which calls are to fail.
ghost use Rattle.std.specs.Prelude.{◌≡◌, ◌^◌, ◌<◌, ◌↔◌, IsTrue, Contains};

/// Whether the call with this number, from 0, stands in the list.
pub(crate) fn is_listed(fails: &[u32], number: u64) -> bool
    ensures listed { IsTrue result ↔ Contains fails.now number }
    ensures small { IsTrue result → number < 2 ^ 32 }
{
    fails.iter().any(|n| u64::from(*n) == number)
}
