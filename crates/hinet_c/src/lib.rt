// What the box's C program links: an export for each entry of `hinet`, with its clauses. A crate is a library or an archive
// for C and not both, so these only pass on.
#![tactic(auto)]

mod booting;
mod line;
mod parameters;
mod requests;
mod station_end;

ghost use Rattle.rows.specs.Outcomes.{Gives};
ghost use Rattle.hinet.specs.Entries.{tables_word, site_word, address_of, place_word, due_word, Freshened, Served, Polled};

// Fills fresh tables; 11 for another size.
#[unsafe(no_mangle)]
pub extern "C" fn hinet_fresh(locks: &mut [u8], stations: &mut [u8]) -> u64
    ensures { Freshened locks.old stations.old result locks.new stations.new }
{
    hinet::hinet_fresh(locks, stations)
}

// 11, or 0 where the tables are good.
#[unsafe(no_mangle)]
pub extern "C" fn hinet_check_tables(locks: &[u8], stations: &[u8]) -> u64
    ensures { Gives (tables_word locks.now stations.now) result }
{
    hinet::hinet_check_tables(locks, stations)
}

// 10 with the first fault, or 0 where the site file is good.
#[unsafe(no_mangle)]
pub extern "C" fn hinet_check_site(site: &[u8]) -> u64
    ensures { Gives (site_word site.now) result }
{
    hinet::hinet_check_site(site)
}

// One frame at the number polled: 11, 10 with the first fault, 1 to 9, or what the frame does.
#[unsafe(no_mangle)]
pub extern "C" fn hinet_frame(
    number: u32,
    frame: &[u8],
    site: &[u8],
    locks: &mut [u8],
    stations: &mut [u8],
) -> u64
    ensures { Served number frame.now site.now locks.old stations.old result locks.new stations.new }
{
    hinet::hinet_frame(number, frame, site, locks, stations)
}

// One poll turn of the number: 11, 2, 5, 12, or was it due and did it end in a logout.
#[unsafe(no_mangle)]
pub extern "C" fn hinet_poll(number: u32, heard: u32, locks: &mut [u8], stations: &mut [u8]) -> u64
    ensures { Polled number heard locks.old stations.old result locks.new stations.new }
{
    hinet::hinet_poll(number, heard, locks, stations)
}

// Is the next poll turn of the number due: 11, 2, 5, or due and no logout.
#[unsafe(no_mangle)]
pub extern "C" fn hinet_due(number: u32, locks: &[u8], stations: &[u8]) -> u64
    ensures { Gives (due_word number locks.now stations.now) result }
{
    hinet::hinet_due(number, locks, stations)
}

// The place of an address: 10 with the first fault, 8, 9, or volume and sector. A volume or partition above 255 names no row.
#[unsafe(no_mangle)]
pub extern "C" fn hinet_place(
    volume: u32,
    partition: u32,
    track: u32,
    sector: u32,
    site: &[u8],
) -> u64
    ensures { Gives (place_word site.now (address_of volume partition track sector)) result }
{
    hinet::hinet_place(volume, partition, track, sector, site)
}
