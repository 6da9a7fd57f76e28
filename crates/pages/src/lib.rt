// Text put together in lent bytes, so that a line or a page is written at once.
#![tactic(auto)]

pub mod frame;

ghost use Rattle.std.specs.Prelude.{◌≡◌, ◌+◌, ◌≤◌, ◌<◌, ◌++◌, length, take};

use std::fmt;
use std::fmt::Write;

// The capital digit of a value below 16. By hand: a frame of 1,024 bytes by `{:02X}` took half as many instructions again to tell.
fn digit(d: u8) -> u8
    requires { d < 16 }
{
    if d < 10 { b'0' + d } else { b'A' + (d - 10) }
}

// Lent bytes, and how many of them have text so far.
#[derive(Drop)]
pub struct Page<'a> {
    room: &'a mut [u8],
    end: usize,
    ghost within: { end ≤ length room.now },
}

impl<'a> Page<'a> {
    // A page without text.
    pub fn new(room: &'a mut [u8]) -> Page<'a>
        ensures text { (result.end ≡ 0) × (result.room.now ≡ room.old) }
        ensures same_room { result.room.ghost_name ≡ room.entry.ghost_name }
    {
        Page { room, end: 0 }
    }

    // The text so far.
    pub fn text(&self) -> &[u8]
        ensures { result.now ≡ take self.now.end self.now.room.now }
    {
        &self.room[..self.end]
    }

    // Puts bytes down behind the text, or nothing where they do not fit.
    pub fn append(&mut self, bytes: &[u8])
        ensures stays { take self.old.end self.new.room.now ≡ take self.old.end self.old.room.now }
        ensures further { self.old.end ≤ self.new.end }
        ensures fits { self.old.end + length bytes.now ≤ length self.old.room.now → take self.new.end self.new.room.now ≡ take self.old.end self.old.room.now ++ bytes.now }
        ensures full { length self.old.room.now < self.old.end + length bytes.now → take self.new.end self.new.room.now ≡ take self.old.end self.old.room.now }
        ensures room { length self.new.room.now ≡ length self.old.room.now }
        ensures same_room { self.new.room.ghost_name ≡ self.old.room.ghost_name }
    {
        if self.room.len() - self.end < bytes.len() {
            return;
        }
        let end = self.end + bytes.len();
        self.room[self.end..end].copy_from_slice(bytes);
        self.end = end;
    }

    // Puts bytes down in hex, each behind a space.
    pub fn append_hex(&mut self, bytes: &[u8])
        ensures stays { take self.old.end self.new.room.now ≡ take self.old.end self.old.room.now }
        ensures further { self.old.end ≤ self.new.end }
        ensures room { length self.new.room.now ≡ length self.old.room.now }
        ensures same_room { self.new.room.ghost_name ≡ self.old.room.ghost_name }
    {
        for byte in bytes {
            self.append(&[b' ', digit(*byte / 16), digit(*byte % 16)]);
        }
    }

    // What `write!` calls: the text goes behind the one that stands. It has no answer, since what does not fit is left out and is no
    // error.
    pub fn write_fmt(&mut self, text: impl fmt::Display + Drop)
        ensures stays { take self.old.end self.new.room.now ≡ take self.old.end self.old.room.now }
        ensures further { self.old.end ≤ self.new.end }
        ensures room { length self.new.room.now ≡ length self.old.room.now }
        ensures same_room { self.new.room.ghost_name ≡ self.old.room.ghost_name }
    {
        let left = self.room.len() - self.end;
        let mut rest = Page::new(&mut self.room[self.end..]);
        let _ = Write::write(&mut rest, text);
        let more = rest.end;
        self.end += more.min(left);
    }
}

impl fmt::Write for Page<'_> {
    fn write_str(&mut self, text: &str) -> fmt::Result {
        self.append(text.as_bytes());
        Ok(())
    }
}

// How many there are of a thing: one is told in the singular.
#[derive(Clone, Copy, Debug)]
pub struct Count<'a>(pub usize, pub &'a str);

impl fmt::Display for Count<'_> {
    fn fmt<W: fmt::Write>(&self, f: &mut fmt::Formatter<W>) -> fmt::Result {
        let Count(n, thing) = *self;
        match n {
            1 => write!(f, "1 {thing}"),
            _ => write!(f, "{n} {thing}s"),
        }
    }
}

// Bytes as text, with a dot for each that is no character.
#[derive(Clone, Copy, Debug)]
pub struct Shown<'a>(pub &'a [u8]);

impl fmt::Display for Shown<'_> {
    fn fmt<W: fmt::Write>(&self, f: &mut fmt::Formatter<W>) -> fmt::Result {
        for byte in self.0 {
            f.write_char(match *byte {
                b' '..=b'~' => char::from(*byte),
                _ => '.',
            })?;
        }
        Ok(())
    }
}
