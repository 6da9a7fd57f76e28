// Size codes: how many tracks a partition has, and what lies inside it.
ghost use Rattle.std.specs.Prelude.{◌≡◌, ◌&&◌, ◌≤◌, leb, ltb};
ghost use Rattle.site.specs.Rules.{tracks as tracks_of, sectors as sectors_of};

use terms::Address;

// The tracks of a size code 1 to 6.
pub fn tracks(size: u8) -> u32
    requires { (1 ≤ size) × (size ≤ 6) }
    ensures { (result ≡ tracks_of size) × (result ≤ 512) }
{
    8 << size
}

// Its sectors.
pub fn sectors(size: u8) -> u32
    requires { (1 ≤ size) × (size ≤ 6) }
    ensures { (result ≡ sectors_of size) × (result ≤ 65536) }
{
    tracks(size) * 128
}

// The address lies inside a partition of this size.
pub fn is_inside(size: u8, address: Address) -> bool
    requires { (1 ≤ size) × (size ≤ 6) }
    ensures { result ≡ ltb address.track.0 (tracks_of size) && (leb 1 address.sector.0 && leb address.sector.0 128) }
{
    let track = u32::from(address.track.0);
    let sector = address.sector.0;
    if tracks(size) <= track {
        return false;
    }
    if sector < 1 {
        return false;
    }
    sector <= 128
}
