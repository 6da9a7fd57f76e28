// Taking: the bits between two places, without their zeros, a byte at a time.
ghost use Rattle.std.specs.Prelude.{◌≡◌, ◌+◌, ◌-◌, ◌*◌, ◌/◌, ◌<◌, ◌≤◌, ◌^◌, ◌%◌, false, ◌++◌, length, drop, get_or};
ghost use Rattle.framing.specs.Bits.{to_bits, packed};
ghost use Rattle.framing.specs.Inner.{whole_byte, coming, plain, Goes, Sums};

use crate::runs::{Span, Taken, Taker};
use crate::{fcs, zeros};

// Whole bytes, their register, and how many bits are left.
#[derive(Clone, Copy)]
pub struct Summed {
    pub bytes: usize,
    pub left: usize,
    pub register: u16,
}

// The bit at a place.
pub fn bit_at(s: &[u8], at: usize) -> bool
    requires { at < 8 * length s.now }
    ensures { result ≡ get_or (to_bits s.now) at false }
{
    (s[at / 8] >> (at % 8)) % 2 == 1
}

// A whole byte stands at a place.
#[tactic(auto, unfolding(crate::specs::Inner::whole_byte))]
pub fn is_whole(at: usize, to: usize) -> bool
    requires { at ≤ to }
    ensures { result ≡ whole_byte at to }
{
    at % 8 == 0 && 8 <= to - at
}

// Goes over n bits, of which these were taken.
fn go_over(t: Taker, n: usize, taken: Taken) -> Taker
    requires { (t.held < 8) × (t.at + n < 2 ^ 64) }
    ensures { (result.at ≡ t.at + n) × (result.ones ≡ taken.ones) × (result.acc ≡ t.acc + taken.bits * 2 ^ t.held) × (result.held ≡ t.held + taken.count) }
{
    Taker {
        at: t.at + n,
        ones: taken.ones,
        acc: t.acc + zeros::raised(taken.bits, t.held),
        held: t.held + taken.count,
    }
}

// The byte in hand.
fn byte_of(t: Taker) -> u8
    ensures { result ≡ t.acc % 256 }
{
    (t.acc % 256) as u8
}

// The taker without it.
fn rest_of(t: Taker) -> Taker
    requires { 8 ≤ t.held }
    ensures { (result.at ≡ t.at) × (result.ones ≡ t.ones) × (result.acc ≡ t.acc / 256) × (result.held ≡ t.held - 8) }
{
    Taker {
        at: t.at,
        ones: t.ones,
        acc: t.acc / 256,
        held: t.held - 8,
    }
}

impl Span<'_> {
    // Takes the next byte where one stands whole, or the next bit.
    fn step(&self, t: Taker) -> Taker
        requires { (t.held < 8) × (t.at < self.now.to) }
        ensures { Goes self.now t result × (t.at < result.at) }
    {
        let at = t.at;
        let ones = t.ones;
        if is_whole(at, self.to) {
            return go_over(t, 8, zeros::byte_taken(ones, self.bytes[at / 8]));
        }
        go_over(t, 1, zeros::bit_taken(ones, bit_at(self.bytes, at)))
    }

    // The sum of all bits. The loop counts nothing: a step goes on by a byte or by a bit.
    pub fn sum(&self) -> Summed
        ensures { Sums (plain self.now) result }
    {
        let mut register: u16 = 65535;
        let mut bytes: usize = 0;
        let mut t = Taker::new(self.from);
        while t.at < self.to {
            t = self.step(t);
            if 8 <= t.held {
                register = fcs::add_byte(register, byte_of(t));
                bytes += 1;
                t = rest_of(t);
            }
        }
        Summed {
            bytes,
            left: t.held,
            register,
        }
    }

    // Goes on until a byte is in hand, by as many steps as that takes.
    fn pull(&self, t: Taker) -> Taker
        requires { (t.at ≤ self.now.to) × (8 ≤ length (coming self.now t)) }
        ensures { Goes self.now t result × (8 ≤ result.held) }
    {
        let mut r = t;
        while r.held < 8 {
            r = self.step(r);
        }
        r
    }

    // Copies the next n bytes to the start of a buffer.
    fn copy(&self, t: Taker, out: &mut [u8], n: usize)
        requires { (t.at ≤ self.now.to) × (8 * n ≤ length (coming self.now t)) × (n ≤ length out.old) }
        ensures { out.new ≡ packed n (coming self.now t) ++ drop n out.old }
    {
        let mut r = t;
        for byte in &mut out[..n] {
            r = self.pull(r);
            *byte = byte_of(r);
            r = rest_of(r);
        }
    }

    // Gives the first byte, and copies the next n.
    pub fn deliver(&self, out: &mut [u8], n: usize) -> u8
        requires { (8 * (n + 1) ≤ length (plain self.now)) × (n ≤ length out.old) }
        ensures { (result ≡ get_or (packed (n + 1) (plain self.now)) 0 0) × (out.new ≡ drop 1 (packed (n + 1) (plain self.now)) ++ drop n out.old) }
    {
        let first = self.pull(Taker::new(self.from));
        self.copy(rest_of(first), out, n);
        byte_of(first)
    }
}
