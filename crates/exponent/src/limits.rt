ghost use Rattle.std.specs.Prelude.{◌≡◌};
ghost use Rattle.std.specs.List.{position};
ghost use Rattle.exponent.specs.Plan.{invalid_entry};
ghost use Rattle.exponent.specs.Limits.{outside};

use crate::block;

// Whether n lies below low or above high.
pub fn outside(low: usize, high: usize, n: usize) -> bool
    ensures { result ≡ outside low high n }
{
    n < low || high < n
}

// The place of the first invalid entry, if there is one.
pub fn first_invalid(plan: &[i16], lift: usize) -> Option<usize>
    ensures { result ≡ position (invalid_entry lift) plan.now }
{
    plan.iter()
        .position(|&e| block::entry(e, lift).is_invalid())
}
