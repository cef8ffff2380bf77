ghost use Rattle.std.specs.Prelude.{◌++◌, Some, codes, decimal, refl, ◌≡◌};
ghost use Rattle.kind.specs.Kinds.{paid_kind};
ghost use Rattle.kind.specs.Kept.{paid_laws};

use crate::cost::Cost;
use std::fmt;
use std::ops::Add;

/// Paid segments and a delay; a link has 0 to 1,000 segments and a delay of 1 to 1,000,000.
/// The segments are compared first: keep them the first field.
#[derive(Clone, Copy, PartialEq, Eq, PartialOrd, Ord)]
pub struct Paid {
    pub segments: u32,
    pub delay: u32,
}

impl Add for Paid {
    type Output = Paid;

    ghost add_gives = { λ a b c. c ≡ paid_kind.adds a b };

    fn add(self, other: Paid) -> Paid {
        Paid {
            segments: self.segments.saturating_add(other.segments),
            delay: self.delay.saturating_add(other.delay),
        }
    }
}

impl Cost for Paid {
    ghost kind = { paid_kind };

    fn zero() -> Paid {
        Paid {
            segments: 0,
            delay: 0,
        }
    }

    fn is_link(self) -> bool {
        self.segments <= 1_000 && 1 <= self.delay && self.delay <= 1_000_000
    }

    ghost compares = { refl };

    ghost may_add = { λ a b. tt };

    ghost adds = { λ a b c h. h };

    ghost laws = { paid_laws };
}

impl fmt::Display for Paid {
    ghost output = { λ p. Some
        (codes "paid " ++ (decimal p.segments ++ (codes " delay " ++ decimal p.delay))) };

    fn fmt<W: fmt::Write>(&self, f: &mut fmt::Formatter<W>) -> fmt::Result {
        write!(f, "paid {} delay {}", self.segments, self.delay)
    }
}
