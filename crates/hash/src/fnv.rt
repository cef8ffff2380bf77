ghost use Rattle.std.specs.Prelude.{◌≡◌};
ghost use Rattle.hash.specs.Colours.{fnv};
ghost use Rattle.hash.specs.Fnv1a.{step, fnv_hash, bytes_of};
ghost use Rattle.hash.specs.Kept.{fnv_gives};

use crate::name_hash::NameHash;
use crate::remainder::Remainder;

// What the hash is before the first byte.
const OFFSET_BASIS: u32 = 2_166_136_261;

const PRIME: u32 = 16_777_619;

/// The 32-bit FNV-1a hash of a name's four bytes,
/// lowest first: its remainder by the number of colours, plus 1.
pub struct Fnv;

impl NameHash for Fnv {
    ghost colour = { fnv };

    ghost within = { fnv_gives };

    fn colour_of(colours: u8, name: u32) -> u8 {
        Remainder::colour_of(colours, fnv_1a(name))
    }
}

/// The FNV-1a hash of no bytes.
pub fn fnv_basis() -> u32
    ensures { result ≡ 2166136261 }
{
    OFFSET_BASIS
}

/// The FNV-1a hash after one more byte.
pub fn fnv_step(hash: u32, byte: u8) -> u32
    ensures { result ≡ step hash byte }
{
    (hash ^ u32::from(byte)).wrapping_mul(PRIME)
}

// The FNV-1a hash of any bytes.
fn hash_of(bytes: &[u8]) -> u32
    ensures { result ≡ fnv_hash bytes.now }
{
    bytes
        .iter()
        .fold(fnv_basis(), |hash, byte| fnv_step(hash, *byte))
}

/// The FNV-1a hash of a name's four bytes, lowest first.
pub fn fnv_1a(name: u32) -> u32
    ensures { result ≡ fnv_hash (bytes_of name) }
{
    hash_of(&name.to_le_bytes())
}
