//! Counts of callbacks, which stop at 2^62 in place of running over.
ghost use Rattle.std.specs.Prelude.{◌≡◌};
ghost use Rattle.user_propagator.specs.Meaning.{next_count};

// Where a count stops.
const MOST: u64 = 4_611_686_018_427_387_904;

/// One more, up to 2^62, where a count stays.
pub fn next(count: u64) -> u64
    ensures { result ≡ next_count count }
{
    if count < MOST { count + 1 } else { count }
}
