ghost use Rattle.std.specs.Prelude.{◌≡◌};
ghost use Rattle.kind.specs.Kinds.{paid};
ghost use Rattle.measure.specs.Example.{FromFirstToLast};

use kind::Paid;

/// Relays 30, 31 and 32, with paid links 30–31 (0, 9), 30–32 (1, 1) and 31–32 (0, 1):
/// the distance from 30 to 32, and the number of the next relay.
/// The way round over 31 is longer, and no segment of it is paid for.
#[tactic(auto, using(crate::proofs::Three::three_stands))]
pub fn paid_example() -> (Paid, u16)
    ensures value { (result.0 ≡ paid 0 10) × (result.1 ≡ 1) }
    ensures stands { FromFirstToLast result.0 result.1 }
{
    let distance = Paid {
        segments: 0,
        delay: 10,
    };
    (distance, 1)
}
