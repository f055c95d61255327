// The limit of every count of coins.
ghost use Rattle.std.specs.Prelude.{◌≡◌, ◌+◌, nat_lt};
ghost use Rattle.coins.specs.Limits.{limit};

// No count comes to this.
const LIMIT: u64 = 1 << 62;

// Whether so many more keep a count below the limit.
pub fn fits(count: u64, more: u64) -> bool
    ensures { result ≡ nat_lt (count + more) limit }
{
    more < LIMIT && count < LIMIT - more
}
