// The entries of a station's end of the lock exchange, over its state of 911 lent bytes (specs/StationEntries.antt).
ghost use Rattle.terms.specs.Strings.{string_at};
ghost use Rattle.hinet.specs.StationEntries.{Freshly, Locks, Unlocks, Clears, Sends, Takes};

use crate::given;
use crate::packing::{Packed, Written};

// An empty list, and no reply awaited: 11 for another size.
pub fn hinet_station_fresh(station: &mut [u8]) -> u64
    ensures { Freshly station.old result station.new }
{
    station::fresh(station).pack()
}

// Asks for a lock: 11, 14.
pub fn hinet_station_lock(station: &mut [u8], lockstring: &[u8; 14]) -> u64
    ensures { Locks station.old (string_at lockstring.now 0) result station.new }
{
    station::ask_lock(station, terms::string_at(lockstring, 0)).pack()
}

// Asks to unlock: 11, 14.
pub fn hinet_station_unlock(station: &mut [u8], lockstring: &[u8; 14]) -> u64
    ensures { Unlocks station.old (string_at lockstring.now 0) result station.new }
{
    station::ask_unlock(station, terms::string_at(lockstring, 0)).pack()
}

// Asks to clear all locks: 11, 14.
pub fn hinet_station_clear(station: &mut [u8]) -> u64
    ensures { Clears station.old result station.new }
{
    station::ask_clear(station).pack()
}

// Writes the frame awaited and tells its length, 0 where nothing is awaited: 11, 13.
pub fn hinet_station_frame(station: &[u8], buffer: &mut [u8]) -> u64
    ensures { Sends station.now buffer.old result buffer.new }
{
    match station::send(station, buffer) {
        Ok(length) => Written(length as u8).pack(),
        Err(refusal) => refusal.pack(),
    }
}

// Takes a reply to the frame awaited: 11, 15. A number above 255 is taken for 255, which no request lists either.
pub fn hinet_station_reply(station: &mut [u8], reply: u32) -> u64
    ensures { Takes station.old reply result station.new }
{
    station::take_reply(station, given::byte_of(reply)).pack()
}
