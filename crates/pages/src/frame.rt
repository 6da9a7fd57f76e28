// A frame of the line, as a person types it and reads it. What stands on the line, `framing` alone says: here its bits are
// walked and told. A byte is a row: its bits in the order in which they go on the line, a zero that was put in between
// parentheses, and behind a semicolon what it is.
ghost use Rattle.std.specs.Prelude.{◌≡◌, ◌+◌, ◌*◌, ◌≤◌, ◌<◌, length};

use crate::{Page, Shown, digit};
use hex::FromHexError;
use refusals::Refusal;
use std::error::Error;
use std::fmt;

// Room for what is typed, bytes in hex or bits; for the bytes in it; and for as many bits in bytes.
pub const TEXT: usize = 16384;

const BYTES: usize = 8192;

const BITS: usize = 2048;

// Room for the rows of the longest frame, 1031, and the line below them.
pub const PAGE: usize = 27000;

// Room for a byte's bits in its row, with a zero that was put in at two places.
const COLUMN: usize = 15;

// The longest data of a frame.
const MOST: usize = 1024;

// Why there is no frame to tell of.
#[derive(Clone, Copy, Debug, PartialEq, Eq, Drop)]
pub enum Unfit {
    NotHex,
    Refused(Refusal),
}

impl fmt::Display for Unfit {
    fn fmt<W: fmt::Write>(&self, f: &mut fmt::Formatter<W>) -> fmt::Result {
        match self {
            Unfit::NotHex => f.write_str("USER and DATA are not whole bytes in hex"),
            Unfit::Refused(refusal) => write!(f, "refused {}: {refusal}", refusal.number()),
        }
    }
}

impl Error for Unfit {}

impl From<FromHexError> for Unfit {
    fn from(_error: FromHexError) -> Unfit {
        Unfit::NotHex
    }
}

impl From<Refusal> for Unfit {
    fn from(refusal: Refusal) -> Unfit {
        Unfit::Refused(refusal)
    }
}

// What a byte of a frame is.
#[derive(Clone, Copy, Debug, PartialEq, Eq)]
enum Part {
    Flag,
    User,
    Data,
    Check,
}

impl Part {
    // What row i of so many is.
    fn of_row(i: usize, rows: usize) -> Part
        requires { i < rows }
    {
        match (i, rows - i) {
            (0 | 1, _) | (_, 1 | 2) => Part::Flag,
            (2, _) => Part::User,
            (_, 3 | 4) => Part::Check,
            _ => Part::Data,
        }
    }

    // Its row, with room for the bits and the byte. Put down whole, since a row that `write!` made took twice the time.
    fn row(self) -> [u8; 26] {
        match self {
            Part::Flag => *b"               ; flag  00\n",
            Part::User => *b"               ; user  00\n",
            Part::Data => *b"               ; data  00\n",
            Part::Check => *b"               ; check 00\n",
        }
    }
}

// Where a walk over bits stands: the next bit's place, and how many ones stand before it.
#[derive(Drop)]
struct Walk<'a> {
    bits: &'a [u8],
    place: usize,
    ones: u8,
    ghost few: { ones < 5 },
}

impl Walk<'_> {
    // The next bit; 0 beyond the end.
    fn next_bit(&mut self) -> u8
        requires { self.old.place < 4000000 }
        ensures { (result < 2) × (self.new.place ≡ self.old.place + 1) × (self.new.ones ≡ self.old.ones) }
    {
        let place = self.place;
        self.place += 1;
        match self.bits.get(place / 8) {
            Some(byte) => (*byte >> (place % 8)) % 2,
            None => 0,
        }
    }

    // Tells the bits of the next byte, and answers the byte. Inside the content the zero after five ones goes with it.
    fn append_bits(&mut self, column: &mut Page, inside: bool) -> u8
        requires { self.old.place < 2000000 }
        ensures { (self.old.place + 8 ≤ self.new.place) × (self.new.place ≤ self.old.place + 16) }
    {
        let mut byte: u8 = 0;
        for k in 0..8u8 {
            let bit = self.next_bit();
            column.append(&[b'0' + bit]);
            byte |= bit << k;
            if bit == 0 {
                self.ones = 0;
            } else if self.ones < 4 {
                self.ones += 1;
            } else {
                self.ones = 0;
                if inside {
                    column.append(&[b'(', b'0' + self.next_bit(), b')']);
                }
            }
        }
        byte
    }

    // Tells the next byte, which is this part, on a row.
    fn append_row(&mut self, page: &mut Page, part: Part)
        requires { self.old.place < 2000000 }
        ensures room { page.new.room.ghost_name ≡ page.old.room.ghost_name }
        ensures steps { (self.old.place + 8 ≤ self.new.place) × (self.new.place ≤ self.old.place + 16) }
    {
        let mut row = part.row();
        let byte = self.append_bits(&mut Page::new(&mut row[..COLUMN]), part != Part::Flag);
        row[23] = digit(byte / 16);
        row[24] = digit(byte % 16);
        page.append(&row);
    }
}

// Puts down the bits that a text has, low bit first, and answers how many. What is neither 0 nor 1 is skipped.
fn bits_of(text: &[u8], bits: &mut [u8]) -> usize
    requires { length text.now ≤ 8 * length bits.old }
{
    let mut count: usize = 0;
    for c in text {
        if let b'0' | b'1' = *c {
            bits[count / 8] |= u8::from(*c == b'1') << (count % 8);
            count += 1;
        }
    }
    count
}

// Tells a frame's rows, flags and check among them, and answers how many of its bits are zeros that were put in.
fn append_rows(page: &mut Page, bits: &[u8], rows: usize) -> usize
    requires { rows < 100000 }
    ensures { page.new.room.ghost_name ≡ page.old.room.ghost_name }
{
    let mut walk = Walk {
        bits,
        place: 0,
        ones: 0,
    };
    for i in 0..rows {
        walk.append_row(page, Part::of_row(i, rows));
    }
    walk.place - 8 * rows
}

// Writes a frame, and tells its bits.
fn append_frame(page: &mut Page, user: u8, data: &[u8]) -> Result<(), Refusal>
    requires { length «data».now ≤ 16384 }
    ensures { page.new.room.ghost_name ≡ page.old.room.ghost_name }
{
    let mut bits = [0u8; BITS];
    let count = framing::write(user, data, &mut bits)?;
    let zeros = append_rows(page, &bits, data.len() + 7);
    writeln!(page, "; bits: {count}, zeros put in: {zeros}");
    Ok(())
}

// Writes the frame whose user number and data a text has in hex, and tells its bits.
pub fn append_written(page: &mut Page, text: &[u8]) -> Result<(), Unfit>
    requires { length text.now ≤ 16384 }
    ensures { page.new.room.ghost_name ≡ page.old.room.ghost_name }
{
    let mut room = [0u8; BYTES];
    let bytes = &mut room[..text.len() / 2];
    hex::decode_to_slice(text, bytes)?;
    let [user, data @ ..] = bytes else {
        return Err(Unfit::NotHex);
    };
    append_frame(page, *user, data)?;
    Ok(())
}

// Tells what was read: user number, length, and the data in hex and as text.
fn append_reading(page: &mut Page, user: u8, data: &[u8])
    ensures { page.new.room.ghost_name ≡ page.old.room.ghost_name }
{
    write!(page, "user {user}\nlength {}\ndata", data.len());
    page.append_hex(data);
    writeln!(page, "\ntext {}", Shown(data));
}

// Reads the frame whose bits a text has, and tells what was read.
pub fn append_read(page: &mut Page, text: &[u8]) -> Result<(), Unfit>
    requires { length text.now ≤ 16384 }
    ensures { page.new.room.ghost_name ≡ page.old.room.ghost_name }
{
    let mut bits = [0u8; BITS];
    let count = bits_of(text, &mut bits);
    let mut data = [0u8; MOST];
    let heading = framing::read(&bits, count, &mut data)?;
    append_reading(page, heading.user, &data[..usize::from(heading.length)]);
    Ok(())
}
