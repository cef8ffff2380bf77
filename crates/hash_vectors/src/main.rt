//! Compares the hashes of crate hash with the published vectors of 32-bit FNV-1a.

#![tactic(auto)]

ghost use Rattle.std.specs.Prelude.{◌≡◌, ◌+◌, ◌-◌, ◌*◌, ◌^◌, min, ◌≢◌, slice_index};
ghost use Rattle.hash.specs.Fnv1a.{fnv_hash, bytes_of};

use hash::{fnv_1a, fnv_basis, fnv_step};
use std::io;

// How many vectors were compared, and how many of them differ.
#[derive(Default, Drop)]
struct Tally {
    compared: u32,
    differ: u32,
}

impl Tally {
    // Compares the hash found with the published one, and prints a line on it.
    fn compare(
        &mut self,
        rt: &HostRuntime,
        what: &str,
        found: u32,
        published: u32,
    ) -> io::Result<()>
        ensures compared { self.new.compared ≡ min (self.old.compared + 1) (2 ^ 32 - 1) }
        ensures same { found ≡ published → self.new.differ ≡ self.old.differ }
        ensures differs { (found ≢ published)
            → self.new.differ ≡ min (self.old.differ + 1) (2 ^ 32 - 1) }
    {
        self.compared = self.compared.saturating_add(1);
        if found == published {
            println!(rt; "{what}: 0x{found:08x} ok")
        } else {
            self.differ = self.differ.saturating_add(1);
            println!(rt; "{what}: 0x{found:08x} DIFFERS from 0x{published:08x}")
        }
    }
}

// The hash of the name that has these four bytes, lowest first.
fn by_name(bytes: [u8; 4]) -> u32
    ensures { result
        ≡ fnv_hash
        (bytes_of
        (slice_index bytes 0 + slice_index bytes 1 * 256 + slice_index bytes 2 * 65536
        + slice_index bytes 3 * 16777216)) }
{
    fnv_1a(u32::from_le_bytes(bytes))
}

// The hash of any bytes, a step for each: crate hash has the same for itself,
// and this program tries its public steps.
fn by_steps(bytes: &[u8]) -> u32
    ensures { result ≡ fnv_hash bytes.now }
{
    bytes
        .iter()
        .fold(fnv_basis(), |hash, byte| fnv_step(hash, *byte))
}

// The vectors of any length.
fn compare_steps(rt: &HostRuntime, tally: &mut Tally) -> io::Result<()> {
    tally.compare(rt, "no bytes, by steps", by_steps(b""), 0x811c_9dc5)?;
    tally.compare(rt, "a, by steps", by_steps(b"a"), 0xe40c_292c)?;
    tally.compare(rt, "foobar, by steps", by_steps(b"foobar"), 0xbf9c_f968)
}

// The vectors of four bytes.
fn compare_names(rt: &HostRuntime, tally: &mut Tally) -> io::Result<()> {
    let vectors = [
        ("foob, by name", *b"foob", 0x3f50_76ef),
        ("ff 00 00 01, by name", [0xff, 0, 0, 0x01], 0xc48f_b86d),
        ("01 00 00 ff, by name", [0x01, 0, 0, 0xff], 0x2269_f369),
        ("ff 00 00 02, by name", [0xff, 0, 0, 0x02], 0xc18f_b3b4),
        ("02 00 00 ff, by name", [0x02, 0, 0, 0xff], 0x50ef_1236),
    ];
    for (what, bytes, published) in vectors {
        tally.compare(rt, what, by_name(bytes), published)?;
    }
    Ok(())
}

fn main(rt: HostRuntime) -> io::Result<()> {
    let mut tally = Tally::default();
    compare_steps(&rt, &mut tally)?;
    compare_names(&rt, &mut tally)?;
    let Tally { compared, differ } = tally;
    println!(rt; "{compared} vectors, {differ} differ")
}
