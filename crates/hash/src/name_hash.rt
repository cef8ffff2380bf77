ghost use Rattle.std.specs.Prelude.{◌≡◌, ℕ};
ghost use Rattle.hash.specs.Colours.{GivesColours};

/// A name hash: for each number of colours k, one fixed function from names to the colours 1 to k.
/// Nothing but the number of colours and the name goes in,
/// so the same name has the same colour each time.
pub trait NameHash {
    // `colour k name` is the colour of a name among k colours.
    ghost colour: { ℕ → ℕ → ℕ };

    /// The colour of a name among so many colours.
    fn colour_of(colours: u8, name: u32) -> u8
        ensures { result ≡ colour colours name };

    // Where there are colours, every name has one of them.
    ghost within: { GivesColours colour };
}
