ghost use Rattle.std.specs.Prelude.{◌++◌, Some, codes, decimal, refl, ◌≡◌};
ghost use Rattle.kind.specs.Kinds.{delay_kind};
ghost use Rattle.kind.specs.Kept.{delay_laws};

use crate::cost::Cost;
use std::fmt;
use std::ops::Add;

/// A delay, a whole number; a link has 1 to 1,000,000.
#[derive(Clone, Copy, PartialEq, Eq, PartialOrd, Ord)]
pub struct Delay {
    pub ticks: u32,
}

impl Add for Delay {
    type Output = Delay;

    ghost add_gives = { λ a b c. c ≡ delay_kind.adds a b };

    fn add(self, other: Delay) -> Delay {
        Delay {
            ticks: self.ticks.saturating_add(other.ticks),
        }
    }
}

impl Cost for Delay {
    ghost kind = { delay_kind };

    fn zero() -> Delay {
        Delay { ticks: 0 }
    }

    fn is_link(self) -> bool {
        1 <= self.ticks && self.ticks <= 1_000_000
    }

    ghost compares = { refl };

    ghost may_add = { λ a b. tt };

    ghost adds = { λ a b c h. h };

    ghost laws = { delay_laws };
}

impl fmt::Display for Delay {
    ghost output = { λ d. Some (codes "delay " ++ decimal d.ticks) };

    fn fmt<W: fmt::Write>(&self, f: &mut fmt::Formatter<W>) -> fmt::Result {
        write!(f, "delay {}", self.ticks)
    }
}
