// What the C program gives, as the library takes it. A number that is too large for its type becomes the largest one, which
// is no more anybody's number, a row's or inside of a partition than the number itself.
ghost use Rattle.std.specs.Prelude.{◌≡◌, min};
ghost use Rattle.hinet.specs.FrameEntries.{byte_field, fields_for};

use terms::{Address, Partition, Sector, Track, Volume};

// A number for a field of one byte.
pub fn byte_of(n: u32) -> u8
    ensures { result ≡ byte_field n }
{
    u8::try_from(n).unwrap_or(255)
}

// A track for a field of two bytes.
fn track_of(track: u32) -> Track
    ensures { result.0 ≡ min track 65535 }
{
    Track(u16::try_from(track).unwrap_or(65535))
}

// An address for the fields of a frame.
#[tactic(auto, unfolding(crate::specs::FrameEntries::fields_for, crate::specs::Entries::address_of))]
pub fn address_of(volume: u32, partition: u32, track: u32, sector: u32) -> Address
    ensures { result ≡ fields_for volume partition track sector }
{
    Address {
        volume: Volume(byte_of(volume)),
        partition: Partition(byte_of(partition)),
        track: track_of(track),
        sector: Sector(byte_of(sector)),
    }
}
