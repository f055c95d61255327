// Counts of coins in lent memory, each below 2^62.
ghost use Rattle.std.specs.Prelude.{◌≡◌, ◌+◌, ◌<◌, length, slice_index, slice_set};
ghost use Rattle.coins.specs.Limits.{limit};

// Adds to the i-th of the counts.
pub(crate) fn add(counts: &mut [u64], i: usize, more: u64)
    requires inside { i < length counts.old }
    requires fits { slice_index counts.old i + more < limit }
    ensures { counts.new ≡ slice_set counts.old i (slice_index counts.old i + more) }
{
    counts[i] += more;
}
