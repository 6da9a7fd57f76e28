// A zero after five ones, put in and taken out half a byte at a time. A table has an entry for half a byte x after k ones, at
// 16 * k + x.
ghost use Rattle.std.specs.Prelude.{◌≡◌, ◌+◌, ◌<◌, ◌≤◌, ◌*◌, ◌^◌, [], ◌∷◌, length, get_or};
ghost use Rattle.framing.specs.Bits.{bits_of};
ghost use Rattle.framing.specs.Inner.{PutIn, TakenOut};

use crate::runs::{Run, Taken};

// The bits, 32 where they are five, and 64 for each one that stands last.
static PUT: [u16; 80] = [
    0, 1, 2, 3, 4, 5, 6, 7, 72, 73, 74, 75, 140, 141, 206, 271, 0, 1, 2, 3, 4, 5, 6, 7, 72, 73, 74,
    75, 140, 141, 206, 47, 0, 1, 2, 3, 4, 5, 6, 39, 72, 73, 74, 75, 140, 141, 206, 119, 0, 1, 2,
    35, 4, 5, 6, 43, 72, 73, 74, 115, 140, 141, 206, 187, 0, 33, 2, 37, 4, 41, 6, 45, 72, 113, 74,
    117, 140, 185, 206, 253,
];

// The bits, 16 where they are four, 32 for each one that stands last, and 256 for a sixth one.
static TAKEN: [u16; 96] = [
    16, 17, 18, 19, 20, 21, 22, 23, 56, 57, 58, 59, 92, 93, 126, 159, 16, 17, 18, 19, 20, 21, 22,
    23, 56, 57, 58, 59, 92, 93, 126, 191, 16, 17, 18, 19, 20, 21, 22, 7, 56, 57, 58, 59, 92, 93,
    126, 263, 16, 17, 18, 3, 20, 21, 22, 259, 56, 57, 58, 39, 92, 93, 126, 295, 16, 1, 18, 257, 20,
    3, 22, 259, 56, 37, 58, 293, 92, 71, 126, 327, 0, 256, 1, 257, 2, 258, 3, 259, 36, 292, 37,
    293, 70, 326, 103, 359,
];

// The entry of half a byte after so many ones.
fn entry(table: &[u16], ones: usize, half: u8) -> u32
    requires { 16 * ones + half < length table.now }
    ensures { result ≡ get_or table.now (16 * ones + half) 0 }
{
    u32::from(table[16 * ones + usize::from(half)])
}

// Half a byte after so many ones, with its zero.
pub fn put_in(ones: usize, half: u8) -> Run
    requires { (ones < 5) × (half < 16) }
    ensures { PutIn ones (bits_of 4 half) result × (result.count ≤ 5) }
{
    let entry = entry(&PUT, ones, half);
    Run {
        bits: entry % 32,
        count: 4 + (entry / 32 % 2) as usize,
        ones: (entry / 64) as usize,
    }
}

// Bits further up.
pub fn raised(bits: u32, by: usize) -> u32
    requires { (bits < 2 ^ 8) × (by < 8) }
    ensures { result ≡ bits * 2 ^ by }
{
    bits << by
}

// Half a byte after so many ones, without its zero.
fn half_taken(ones: usize, half: u8) -> Taken
    requires { (ones ≤ 5) × (half < 16) }
    ensures { TakenOut ones (bits_of 4 half) result × (result.count ≤ 4) × (result.sixths ≤ 1) }
{
    let entry = entry(&TAKEN, ones, half);
    Taken {
        bits: entry % 16,
        count: 3 + (entry / 16 % 2) as usize,
        ones: (entry / 32 % 8) as usize,
        sixths: entry / 256,
    }
}

// A byte after so many ones, without its zeros.
pub fn byte_taken(ones: usize, byte: u8) -> Taken
    requires { ones ≤ 5 }
    ensures { TakenOut ones (bits_of 8 byte) result }
{
    let low = half_taken(ones, byte % 16);
    let high = half_taken(low.ones, byte / 16);
    Taken {
        bits: low.bits + raised(high.bits, low.count),
        count: low.count + high.count,
        ones: high.ones,
        sixths: low.sixths + high.sixths,
    }
}

// One bit after so many ones, or nothing after five.
pub fn bit_taken(ones: usize, bit: bool) -> Taken
    requires { ones ≤ 5 }
    ensures { TakenOut ones (bit ∷ []) result }
{
    if ones == 5 {
        return Taken {
            bits: 0,
            count: 0,
            ones: 0,
            sixths: u32::from(bit),
        };
    }
    Taken {
        bits: u32::from(bit),
        count: 1,
        ones: if bit { ones + 1 } else { 0 },
        sixths: 0,
    }
}
