// Heads, ends and bounds in lanes are one higher than the times that they mean: a head of 0 says that nothing waits.
ghost use Rattle.std.specs.Prelude.{◌≡◌, ◌+◌, ◌-◌, ◌^◌, ◌<◌, min};

/// Returns the number in lanes that means `time`.
#[inline(always)]
pub(crate) fn lane_number(time: u64) -> u64
    requires { time + 1 < 2 ^ 64 }
    ensures { result ≡ time + 1 }
{
    time + 1
}

/// Returns the number in lanes that means `limit`; `u64::MAX` stays.
#[inline(always)]
pub(crate) fn lane_limit(limit: u64) -> u64
    ensures { result ≡ min (limit + 1) (2 ^ 64 - 1) }
{
    limit.saturating_add(1)
}

/// Returns the time that `number`, a bound in lanes, means.
#[inline(always)]
pub(crate) fn bound_time(number: u64) -> u64
    requires { 0 < number }
    ensures { result ≡ number - 1 }
{
    number - 1
}

/// Returns the time that `number`, an own span in lanes, means; 0 for 0.
#[inline(always)]
pub(crate) fn own_time(number: u64) -> u64
    ensures { result ≡ number - 1 }
{
    number.saturating_sub(1)
}
