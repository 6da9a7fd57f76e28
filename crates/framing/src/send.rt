// Sending: bits laid into bytes, low bit first, with a zero after five ones.
ghost use Rattle.std.specs.Prelude.{◌≡◌, ◌+◌, ◌*◌, ◌<◌, ◌≤◌, ◌^◌, ◌∷◌, ◌++◌, length};
ghost use Rattle.rows.specs.Rows.{over};
ghost use Rattle.framing.specs.Bits.{bits_of, to_bits, pack};
ghost use Rattle.framing.specs.Check.{«check» as check_of};
ghost use Rattle.framing.specs.Frame.{flag, content, frame_bits};
ghost use Rattle.framing.specs.Inner.{place, standing, EachByte, HasRoom, Lays, Sends, Counts};

use crate::runs::{Pen, Run, Tally};
use crate::{fcs, zeros};

// Lays the bits of a run.
fn put(out: &mut [u8], pen: Pen, run: Run) -> Pen
    requires { place pen + run.count ≤ 8 * length out.old }
    ensures { Lays out.old pen (bits_of run.count run.bits) out.new result × (result.ones ≡ run.ones) }
{
    let at = pen.at;
    let acc = pen.acc + zeros::raised(run.bits, pen.held);
    let held = pen.held + run.count;
    let ones = run.ones;
    if held < 8 {
        return Pen {
            at,
            acc,
            held,
            ones,
        };
    }
    out[at] = (acc % 256) as u8;
    Pen {
        at: at + 1,
        acc: acc / 256,
        held: held - 8,
        ones,
    }
}

// Sends half a byte.
fn put_half(out: &mut [u8], pen: Pen, half: u8) -> Pen
    requires { (half < 16) × HasRoom out.old pen (bits_of 4 half) }
    ensures { Sends out.old pen (bits_of 4 half) out.new result }
{
    let run = zeros::put_in(pen.ones, half);
    put(out, pen, run)
}

// Sends a byte.
fn put_byte(out: &mut [u8], pen: Pen, byte: u8) -> Pen
    requires { HasRoom out.old pen (bits_of 8 byte) }
    ensures { Sends out.old pen (bits_of 8 byte) out.new result }
{
    let low = put_half(out, pen, byte % 16);
    put_half(out, low, byte / 16)
}

// Sends bytes.
fn put_bytes(out: &mut [u8], pen: Pen, bytes: &[u8]) -> Pen
    requires { HasRoom out.old pen (to_bits bytes.now) }
    ensures { Sends out.old pen (to_bits bytes.now) out.new result }
{
    let mut p = pen;
    for byte in bytes {
        p = put_byte(out, p, *byte);
    }
    p
}

// Lays two flags.
fn put_flags(out: &mut [u8], pen: Pen) -> Pen
    requires { place pen + 16 ≤ 8 * length out.old }
    ensures { Lays out.old pen (flag ++ flag) out.new result × (result.ones ≡ 0) }
{
    let run = Run {
        bits: 126,
        count: 8,
        ones: 0,
    };
    let one = put(out, pen, run);
    put(out, one, run)
}

// Writes the bits in hand as the last byte.
fn put_rest(out: &mut [u8], pen: Pen)
    requires { EachByte out.old × (place pen ≤ 8 * length out.old) }
    ensures { out.new ≡ over (pack (standing out.old pen)) out.old }
{
    if 0 < pen.held {
        out[pen.at] = pen.acc as u8;
    }
}

// Counts a byte's bits.
fn count_byte(tally: Tally, byte: u8) -> Tally
    requires { tally.bits < 2 ^ 32 }
    ensures { Counts tally (bits_of 8 byte) result }
{
    let low = zeros::put_in(tally.ones, byte % 16);
    let high = zeros::put_in(low.ones, byte / 16);
    Tally {
        bits: tally.bits + low.count + high.count,
        ones: high.ones,
    }
}

// Counts the bits of bytes. This loop and that of `put_bytes` stay two: a trait over both would need a ghost room, a ghost
// relation and the laws by which they add up, to save five lines.
fn count_bytes(tally: Tally, bytes: &[u8]) -> Tally
    requires { (tally.bits < 2 ^ 16) × (length bytes.now ≤ 1024) }
    ensures { Counts tally (to_bits bytes.now) result }
{
    let mut t = tally;
    for byte in bytes {
        t = count_byte(t, *byte);
    }
    t
}

// What stands between the flags: user number, data, and their check.
#[derive(Clone, Copy)]
pub struct Content<'a> {
    user: u8,
    data: &'a [u8],
    sum: u16,
    ghost checked: { sum ≡ check_of (user ∷ «data».now) },
}

impl<'a> Content<'a> {
    // User number and data with their check.
    pub fn new(user: u8, data: &'a [u8]) -> Content<'a>
        ensures { (result.user ≡ user) × (result.«data».now ≡ «data».now) }
    {
        let sum = fcs::of_frame(user, data);
        Content { user, data, sum }
    }

    // Sends user number, data and check, its low byte first.
    fn put(&self, out: &mut [u8], pen: Pen) -> Pen
        requires { HasRoom out.old pen (to_bits (content self.now.user self.now.«data».now)) }
        ensures { Sends out.old pen (to_bits (content self.now.user self.now.«data».now)) out.new result }
    {
        let first = put_byte(out, pen, self.user);
        let last = put_bytes(out, first, self.data);
        put_bytes(out, last, &self.sum.to_le_bytes())
    }

    // Writes a frame, for which there is room.
    pub fn put_frame(&self, out: &mut [u8])
        requires { length (frame_bits self.now.user self.now.«data».now) ≤ 8 * length out.old }
        ensures { out.new ≡ over (pack (frame_bits self.now.user self.now.«data».now)) out.old }
    {
        let opened = put_flags(out, Pen::new());
        let sent = self.put(out, opened);
        let closed = put_flags(out, sent);
        put_rest(out, closed);
    }

    // Counts the bits of a frame: those of four flags, and those between them.
    pub fn count(&self) -> usize
        requires { length self.now.«data».now ≤ 1024 }
        ensures { (result ≡ length (frame_bits self.now.user self.now.«data».now)) × (result < 2 ^ 16) }
    {
        let first = count_byte(Tally { bits: 32, ones: 0 }, self.user);
        let last = count_bytes(first, self.data);
        count_bytes(last, &self.sum.to_le_bytes()).bits
    }
}
