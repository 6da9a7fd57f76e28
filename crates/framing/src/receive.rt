// Receiving: the opening flag, and where the frame stops.
ghost use Rattle.std.specs.Prelude.{◌≡◌, ◌*◌, ◌≤◌, cond, ◌&&◌, eqb, ltb, length};
ghost use Rattle.framing.specs.Bits.{to_bits};
ghost use Rattle.framing.specs.Reading.{«opens» as does_open};
ghost use Rattle.framing.specs.Inner.{Passes, Stops};

use crate::runs::{Passed, Span};
use crate::{take, zeros};
use refusals::Refusal;

// A bit count within the bytes, and a flag at the first bit.
pub fn opens(s: &[u8], n: usize) -> bool
    ensures { result ≡ does_open s.now n }
{
    8 <= n && n.div_ceil(8) <= s.len() && s[0] == 126
}

// Goes from after a zero over whole bytes in which no sixth one stands. No count says beforehand how many those are.
fn quiet(s: &[u8], n: usize, from: usize) -> Passed
    requires { (n ≤ 8 * length s.now) × (from ≤ n) }
    ensures { Passes (to_bits s.now) n from result }
{
    let mut at = from;
    let mut ones: usize = 0;
    while take::is_whole(at, n) {
        let taken = zeros::byte_taken(ones, s[at / 8]);
        if taken.sixths != 0 {
            return Passed { at, ones };
        }
        at += 8;
        ones = taken.ones;
    }
    Passed { at, ones }
}

// A zero ends a flag, and bits stand between it and the flag before. So many ones stand before the zero; `since` counts the bits
// since that flag, this zero among them.
fn closes(ones: usize, since: usize) -> bool
    ensures { result ≡ (eqb ones 6 && ltb 8 since) }
{
    ones == 6 && 8 < since
}

// Where the content starts after a zero: here, if the zero ends a flag.
fn next_start(ones: usize, from: usize, at: usize) -> usize
    ensures { result ≡ cond (eqb ones 6) at from }
{
    if ones == 6 { at } else { from }
}

// Looks for the closing flag: 18, 19, or the bits before it. A zero takes the place on to where `quiet` stops, a one by one.
pub fn find(s: &[u8], n: usize) -> Result<Span<'_>, Refusal>
    requires { (8 ≤ n) × (n ≤ 8 * length s.now) }
    ensures { Stops s.now n result }
{
    let mut from = 8;
    let mut at = 8;
    let mut ones: usize = 0;
    while at < n {
        let bit = take::bit_at(s, at);
        at += 1;
        if bit {
            if ones == 6 {
                return Err(Refusal::SevenOnes);
            }
            ones += 1;
        } else {
            if closes(ones, at - from) {
                return Ok(Span {
                    bytes: s,
                    from,
                    to: at - 8,
                });
            }
            from = next_start(ones, from, at);
            let q = quiet(s, n, at);
            at = q.at;
            ones = q.ones;
        }
    }
    Err(Refusal::NoFlag)
}
