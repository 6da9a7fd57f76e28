// Frames from the line (specs/Line.antt), over what `framing` promises.
ghost use Rattle.std.specs.Prelude.{◌≤◌, min, length, take};
ghost use Rattle.master.specs.Effects.{Does};
ghost use Rattle.master.specs.Line.{heard_effect, received_told, ServesLine};

use crate::Received;
use framing::Heading;
use site::Refused;

// How much of the data is looked at: one byte more than the longest request has. What is longer is refused like this start.
const START: usize = 21;

// A frame of the line that reads well: its user number, the length of its data, and their start.
fn hear(
    number: u32,
    heading: Heading,
    start: &[u8],
    site: &[u8],
    locks: &mut [u8],
    records: &mut [u8],
) -> Result<Received, Refused>
    requires { min heading.length 21 ≤ length start.now }
    ensures { Does (heard_effect number heading.user heading.length (take (min heading.length 21) start.now) site.now locks.old records.old) (received_told result) locks.new records.new }
{
    if heading.user != 0 {
        return Ok(Received::Another(heading));
    }
    let held = usize::from(heading.length).min(START);
    let answer = crate::serve(number, &start[..held], site, locks, records)?;
    Ok(Received::Answered(answer))
}

// What stands on the line: 18, 19, 20, 21, 17, 22; then, for the master, as `serve`.
pub fn receive(
    number: u32,
    bits: &[u8],
    count: usize,
    site: &[u8],
    locks: &mut [u8],
    records: &mut [u8],
) -> Result<Received, Refused>
    ensures { ServesLine number bits.now count site.now locks.old records.old result locks.new records.new }
{
    let mut start = [0u8; START];
    let heading = framing::read_start(bits, count, &mut start)?;
    hear(number, heading, &start, site, locks, records)
}
