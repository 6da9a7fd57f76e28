// The entries of a station's end of the lock exchange.
ghost use Rattle.terms.specs.Strings.{string_at};
ghost use Rattle.hinet.specs.StationEntries.{Freshly, Locks, Unlocks, Clears, Sends, Takes};

// An empty list, and no reply awaited: 11 for another size.
#[unsafe(no_mangle)]
pub extern "C" fn hinet_station_fresh(station: &mut [u8]) -> u64
    ensures { Freshly station.old result station.new }
{
    hinet::station_end::hinet_station_fresh(station)
}

// Asks for a lock: 11, 14.
#[unsafe(no_mangle)]
pub extern "C" fn hinet_station_lock(station: &mut [u8], lockstring: &[u8; 14]) -> u64
    ensures { Locks station.old (string_at lockstring.now 0) result station.new }
{
    hinet::station_end::hinet_station_lock(station, lockstring)
}

// Asks to unlock: 11, 14.
#[unsafe(no_mangle)]
pub extern "C" fn hinet_station_unlock(station: &mut [u8], lockstring: &[u8; 14]) -> u64
    ensures { Unlocks station.old (string_at lockstring.now 0) result station.new }
{
    hinet::station_end::hinet_station_unlock(station, lockstring)
}

// Asks to clear all locks: 11, 14.
#[unsafe(no_mangle)]
pub extern "C" fn hinet_station_clear(station: &mut [u8]) -> u64
    ensures { Clears station.old result station.new }
{
    hinet::station_end::hinet_station_clear(station)
}

// Writes the frame awaited and tells its length, 0 where nothing is awaited: 11, 13.
#[unsafe(no_mangle)]
pub extern "C" fn hinet_station_frame(station: &[u8], buffer: &mut [u8]) -> u64
    ensures { Sends station.now buffer.old result buffer.new }
{
    hinet::station_end::hinet_station_frame(station, buffer)
}

// Takes a reply to the frame awaited: 11, 15. A number above 255 is taken for 255, which no request lists either.
#[unsafe(no_mangle)]
pub extern "C" fn hinet_station_reply(station: &mut [u8], reply: u32) -> u64
    ensures { Takes station.old reply result station.new }
{
    hinet::station_end::hinet_station_reply(station, reply)
}
