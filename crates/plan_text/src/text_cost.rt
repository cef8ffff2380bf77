ghost use Rattle.std.specs.Prelude.{◌≡◌};
ghost use Rattle.plan_text.specs.Kinds.{TextKind, TextLaws, held_in_32, delay_text, paid_text};
ghost use Rattle.std.proofs.Common.{rules};

use crate::plan_kind::PlanKind;
use kind::{Cost, Delay, Paid};

/// A kind of costs that a plan's text can show.
pub trait TextCost: Cost {
    // How a text shows the kind, and the cost of a link.
    ghost text_kind: { TextKind Self };

    /// The kind, as a text names it.
    fn plan_kind() -> PlanKind
        ensures { result ≡ text_kind.kind };

    /// How many numbers show the cost of a link: at most 3.
    fn numbers() -> usize
        ensures { result ≡ text_kind.width };

    /// The cost that these numbers say; where they are shown of no link's cost, a cost that no link
    /// may have.
    fn from_numbers(numbers: &[u64]) -> Self
        ensures { result ≡ text_kind.read numbers.now };

    ghost told: { TextLaws Self.Cost.kind text_kind };
}

// The number, or the largest of 32 bits where it is more.
fn in_32(number: u64) -> u32
    ensures { result ≡ held_in_32 number }
{
    u32::try_from(number).unwrap_or(u32::MAX)
}

// Numbers of another length give a cost that no link may have, and no `Option`: what could not fail
// would then fail, and the draft refuses that cost.

impl TextCost for Delay {
    ghost text_kind = { delay_text };

    ghost told = { Prim.search rules };

    fn plan_kind() -> PlanKind {
        PlanKind::Delay
    }

    fn numbers() -> usize {
        1
    }

    fn from_numbers(numbers: &[u64]) -> Delay {
        match numbers {
            [ticks] => Delay {
                ticks: in_32(*ticks),
            },
            _ => Delay { ticks: 0 },
        }
    }
}

impl TextCost for Paid {
    ghost text_kind = { paid_text };

    ghost told = { Prim.search rules };

    fn plan_kind() -> PlanKind {
        PlanKind::Paid
    }

    fn numbers() -> usize {
        2
    }

    fn from_numbers(numbers: &[u64]) -> Paid {
        match numbers {
            [segments, delay] => Paid {
                segments: in_32(*segments),
                delay: in_32(*delay),
            },
            _ => Paid {
                segments: 0,
                delay: 0,
            },
        }
    }
}
