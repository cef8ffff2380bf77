ghost use Rattle.std.specs.Prelude.{◌≡◌, ℕ};
ghost use Rattle.plan.specs.Plan.{Plan};
ghost use Rattle.plan.specs.Sound.{Sound};
ghost use Rattle.measure.specs.Distance.{Distances};
ghost use Rattle.order.specs.Balls.{Balls};

use kind::Cost;

/// The colour of the landmarks.
pub const LANDMARKS: u8 = 1;

/// Answers `LANDMARKS`. Any sound plan with its distances has the theory of specs/Balls.antt.
pub fn landmark_colour<C: Cost>() -> u8
    ensures value { result ≡ 1 }
    ensures balls { (p : Plan C) (D : ℕ → ℕ → C)
        → Sound C.kind p → Distances C.kind p D → Balls C.kind D p }
{
    LANDMARKS
}
