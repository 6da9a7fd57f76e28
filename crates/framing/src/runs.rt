// Bits in hand: those that a table gives, and those that are sent and taken.
ghost use Rattle.std.specs.Prelude.{◌≡◌, ◌*◌, ◌<◌, ◌≤◌, ◌^◌, length};

// Eight bits at most, how many they are, and how many ones then stand last.
#[derive(Clone, Copy)]
pub struct Run {
    pub bits: u32,
    pub count: usize,
    pub ones: usize,
    pub ghost short: { count ≤ 8 },
    pub ghost small: { bits < 2 ^ count },
    pub ghost few: { ones < 5 },
}

// Eight bits whose zeros are taken out, how many are left, how many ones then stand last, and how many of the zeros were ones.
#[derive(Clone, Copy)]
pub struct Taken {
    pub bits: u32,
    pub count: usize,
    pub ones: usize,
    pub sixths: u32,
    pub ghost short: { count ≤ 8 },
    pub ghost small: { bits < 2 ^ count },
    pub ghost few: { ones ≤ 5 },
}

// How many bytes are written; bits that do not fill a byte yet, and how many; how many ones were sent last.
#[derive(Clone, Copy)]
pub struct Pen {
    pub at: usize,
    pub acc: u32,
    pub held: usize,
    pub ones: usize,
    pub ghost short: { held < 8 },
    pub ghost small: { acc < 2 ^ held },
    pub ghost few: { ones < 5 },
}

impl Pen {
    // Nothing is written yet.
    pub fn new() -> Pen
        ensures { (result.at ≡ 0) × (result.acc ≡ 0) × (result.held ≡ 0) × (result.ones ≡ 0) }
    {
        Pen {
            at: 0,
            acc: 0,
            held: 0,
            ones: 0,
        }
    }
}

// Bits counted, and how many ones stand last.
#[derive(Clone, Copy)]
pub struct Tally {
    pub bits: usize,
    pub ones: usize,
    pub ghost few: { ones < 5 },
}

// The place of the next bit, and how many ones stand before it; bits in hand, and how many.
#[derive(Clone, Copy)]
pub struct Taker {
    pub at: usize,
    pub ones: usize,
    pub acc: u32,
    pub held: usize,
    pub ghost short: { held < 16 },
    pub ghost small: { acc < 2 ^ held },
    pub ghost few: { ones ≤ 5 },
}

impl Taker {
    // Nothing is taken yet.
    pub fn new(at: usize) -> Taker
        ensures { (result.at ≡ at) × (result.ones ≡ 0) × (result.acc ≡ 0) × (result.held ≡ 0) }
    {
        Taker {
            at,
            ones: 0,
            acc: 0,
            held: 0,
        }
    }
}

// A place, and how many ones stand before it.
#[derive(Clone, Copy)]
pub struct Passed {
    pub at: usize,
    pub ones: usize,
}

// The bits from a place to before another, in the bytes that hold them.
#[derive(Clone, Copy)]
pub struct Span<'a> {
    pub bytes: &'a [u8],
    pub from: usize,
    pub to: usize,
    pub ghost order: { from ≤ to },
    pub ghost within: { to ≤ 8 * length bytes.now },
}
