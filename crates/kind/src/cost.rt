ghost use Rattle.std.specs.Prelude.{◌≡◌};
ghost use Rattle.kind.specs.Laws.{CostKind, Laws};
ghost use Rattle.kind.specs.Theory.{Theory};

use std::ops::Add;

/// A kind of costs: a zero, a sum, an order, and which costs a link may have. It keeps the laws of specs/Laws.antt.
/// Costs are compared by `Ord`, and added by `+`.
pub trait Cost: Copy + Ord + Add<Self, Output = Self> {
    // What the kind is: its zero, its sums, its order and its links.
    ghost kind: { CostKind Self };

    /// The cost of the empty walk.
    fn zero() -> Self
        ensures { result ≡ kind.none };

    /// Whether a link may have this cost.
    fn is_link(self) -> bool
        ensures { result ≡ kind.is_link self };

    // The kind's order is that of `Ord`.
    ghost compares: { kind.cmp ≡ Self.cmp };

    // Any two costs may be added, and `+` gives `adds`: exact up to 4,096 link costs in all.
    ghost may_add: { (a b : Self) → Self.can_add a b };

    ghost adds: { (a b c : Self) → Self.add_gives a b c → c ≡ kind.adds a b };

    ghost laws: { Laws kind };
}

/// How many link costs every kind adds up exactly. Any kind has the theory of specs/Theory.antt.
pub fn exact_links<C: Cost>() -> u16
    ensures value { result ≡ 4096 }
    ensures theory { Theory C.kind }
{
    4096
}
