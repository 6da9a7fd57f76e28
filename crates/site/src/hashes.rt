// The hashes by which the checks tell most rows apart: of a name, and of volume and number.
ghost use Rattle.std.specs.Prelude.{◌≡◌, ◌<◌};
ghost use Rattle.site.specs.Shortcuts.{name_hash, number_hash};

use crate::layout::{PARTITION, Partitions};
use terms::names;

// The hash of a name. Equal names have equal hashes.
pub fn name_hash(name: &[u8; 8]) -> usize
    ensures { (result ≡ name_hash name.now) × (result < 1024) }
{
    let solid = names::solid_of(name);
    let low = (solid % 4294967296) as u32;
    let high = (solid / 4294967296) as u32;
    rows::marks::hash(low, high, 0, 0)
}

// The hash of volume and number of partition row i, one for each pair in range.
pub fn number_hash(partitions: &Partitions, i: usize) -> usize
    requires { i < partitions.now.count }
    ensures { (result ≡ number_hash partitions.now.file.now i) × (result < 256) }
{
    let at = partitions.from + PARTITION * i;
    let volume = usize::from(partitions.file[at + 14]);
    let number = usize::from(partitions.file[at + 15]);
    (64 * volume + number) % 256
}
