ghost use Rattle.std.specs.Prelude.{◌≡◌};
ghost use Rattle.hash.specs.Colours.{remainder};
ghost use Rattle.hash.specs.Kept.{remainder_gives};

use crate::name_hash::NameHash;

/// The remainder of a name by the number of colours, plus 1; among no colours it is 0.
pub struct Remainder;

impl NameHash for Remainder {
    ghost colour = { remainder };

    ghost within = { remainder_gives };

    fn colour_of(colours: u8, name: u32) -> u8 {
        match name.checked_rem(u32::from(colours)) {
            Some(rest) => rest as u8 + 1,
            None => 0,
        }
    }
}

/// The remainder colour of the largest name among 16 colours: the last one.
pub fn largest_name_colour() -> u8
    ensures value { result ≡ remainder 16 4294967295 }
    ensures last { remainder 16 4294967295 ≡ 16 }
{
    Remainder::colour_of(16, u32::MAX)
}
