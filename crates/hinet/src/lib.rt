// The entries for the box's C program, which `hinet_c` exports: numbers and byte slices in, one word out (specs/Packing.antt).
// Each is thin over the proved library and takes any input. A number that is too large for what it means is refused and
// never cut to a byte.
// Here stand the master's; those that write and read one frame stand in requests.rt, the station's in station_end.rt, those
// that write disk parameters in parameters.rt, those of the line in line.rt, the one that chooses a system in booting.rt.
#![tactic(auto)]

pub mod booting;
mod given;
pub mod line;
mod packing;
pub mod parameters;
pub mod requests;
pub mod station_end;

ghost use Rattle.rows.specs.Outcomes.{Gives};
ghost use Rattle.hinet.specs.Entries.{tables_word, site_word, address_of, place_word, due_word, Freshened, Served, Polled};

use master::Answer;
use packing::Packed;
use refusals::Refusal;

// Fills fresh tables; 11 for another size.
#[tactic(auto, using(crate::proofs::TellingLaws::done_tells))]
pub fn hinet_fresh(locks: &mut [u8], stations: &mut [u8]) -> u64
    ensures { Freshened locks.old stations.old result locks.new stations.new }
{
    master::fresh(locks, stations).pack()
}

// 11, or 0 where the tables are good.
#[tactic(auto, unfolding(crate::specs::Entries::tables_word, crate::specs::Packing::word))]
pub fn hinet_check_tables(locks: &[u8], stations: &[u8]) -> u64
    ensures { Gives (tables_word locks.now stations.now) result }
{
    if master::tables_good(locks, stations) {
        ().pack()
    } else {
        Refusal::BadTables.pack()
    }
}

// 10 with the first fault, or 0 where the site file is good.
#[tactic(auto, using(crate::proofs::TellingLaws::check_tells), unfolding(crate::specs::Entries::site_word, crate::specs::Entries::site_told))]
pub fn hinet_check_site(site: &[u8]) -> u64
    ensures { Gives (site_word site.now) result }
{
    site::check(site).pack()
}

// One frame at the number polled: 11, 10 with the first fault, 1 to 9, or what the frame does.
#[tactic(auto, using(crate::proofs::TellingLaws::frame_tells))]
pub fn hinet_frame(
    number: u32,
    frame: &[u8],
    site: &[u8],
    locks: &mut [u8],
    stations: &mut [u8],
) -> u64
    ensures { Served number frame.now site.now locks.old stations.old result locks.new stations.new }
{
    master::serve(number, frame, site, locks, stations).pack()
}

// One poll turn of the number: 11, 2, 5, 12, or was it due and did it end in a logout.
#[tactic(auto, using(crate::proofs::TellingLaws::turn_tells), unfolding(crate::specs::Entries::is_heard))]
pub fn hinet_poll(number: u32, heard: u32, locks: &mut [u8], stations: &mut [u8]) -> u64
    ensures { Polled number heard locks.old stations.old result locks.new stations.new }
{
    master::poll_turn(number, heard != 0, locks, stations).pack()
}

// Is the next poll turn of the number due: 11, 2, 5, or due and no logout.
#[tactic(auto, using(crate::proofs::TellingLaws::turn_tells), unfolding(crate::specs::Entries::due_word))]
pub fn hinet_due(number: u32, locks: &[u8], stations: &[u8]) -> u64
    ensures { Gives (due_word number locks.now stations.now) result }
{
    master::due(number, locks, stations).pack()
}

// The place of an address: 10 with the first fault, 8, 9, or volume and sector. A volume or partition above 255 names no row.
pub fn hinet_place(volume: u32, partition: u32, track: u32, sector: u32, site: &[u8]) -> u64
    ensures { Gives (place_word site.now (address_of volume partition track sector)) result }
{
    site::place(site, given::address_of(volume, partition, track, sector))
        .map(Answer::At)
        .pack()
}
