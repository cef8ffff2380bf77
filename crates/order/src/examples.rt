ghost use Rattle.std.specs.Prelude.{◌≡◌, [], ◌∷◌};
ghost use Rattle.order.specs.Examples.{SeenFromTwelve, SeenFromTwenty};

/// What a relay with a ball of three relays has near it, by name.
pub struct Near {
    /// The names of the ball's relays, the nearest first.
    pub ball: [u32; 3],
    /// The name of the home landmark.
    pub home: u32,
}

/// The ball and the home landmark of relay 12 among six relays on a line.
#[tactic(auto, using(crate::proofs::Settled::seen_from_twelve))]
pub fn seen_from_twelve() -> Near
    ensures ball { result.ball ≡ 12 ∷ 11 ∷ 13 ∷ [] }
    ensures home { result.home ≡ 13 }
    ensures stands { SeenFromTwelve result.ball result.home }
{
    Near {
        ball: [12, 11, 13],
        home: 13,
    }
}

/// The ball of relay 20, which has two neighbours, equally far.
#[tactic(auto, using(crate::proofs::Settled::seen_from_twenty))]
pub fn seen_from_twenty() -> [u32; 2]
    ensures value { result ≡ 20 ∷ 21 ∷ [] }
    ensures stands { SeenFromTwenty result }
{
    [20, 21]
}
