// The entries of the line (specs/LineEntries.antt): the number of bits written; user number and length of what was read; a
// frame from the line, served.
ghost use Rattle.hinet.specs.LineEntries.{LineWrites, LineReads, LineServed};

use crate::packing::{Bits, Packed};

// Writes a frame's bits: 17, 13, or how many they are.
pub fn hinet_line_write(user: u8, data: &[u8], bits: &mut [u8]) -> u64
    ensures { LineWrites user «data».now bits.old result bits.new }
{
    framing::write(user, data, bits).map(Bits).pack()
}

// Reads a frame's bits: 18, 19, 20, 21, 17, 22, 13, or user number and length.
#[tactic(auto, using(crate::proofs::TellingLaws::gives_tells), unfolding(framing::specs::Reading::heading_in))]
pub fn hinet_line_read(bits: &[u8], bit_count: usize, data: &mut [u8]) -> u64
    ensures { LineReads bits.now bit_count «data».old result «data».new }
{
    framing::read(bits, bit_count, data).pack()
}

// One frame from the line at the number polled: 18, 19, 20, 21, 17, 22; then as hinet_frame, or another's number and length.
#[tactic(auto, using(crate::proofs::TellingLaws::line_tells))]
pub fn hinet_line_frame(
    number: u32,
    bits: &[u8],
    bit_count: usize,
    site: &[u8],
    locks: &mut [u8],
    stations: &mut [u8],
) -> u64
    ensures { LineServed number bits.now bit_count site.now locks.old stations.old result locks.new stations.new }
{
    master::line::receive(number, bits, bit_count, site, locks, stations).pack()
}
