ghost use Rattle.std.specs.Prelude.{◌≡◌, ◌-◌};
ghost use Rattle.plan.specs.Plan.{Plan};
ghost use Rattle.plan.specs.Sound.{Sound};
ghost use Rattle.measure.specs.Metric.{Metric};

use kind::Cost;

/// In a plan of so many relays every distance is a sum of at most this many link costs.
/// The distance of a sound plan is a metric.
pub fn most_hops<C: Cost>(relays: u16) -> u16
    ensures value { result ≡ relays - 1 }
    ensures metric { (p : Plan C) → Sound C.kind p → Metric C.kind p }
{
    relays.saturating_sub(1)
}
