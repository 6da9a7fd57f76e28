// Reading into lent bytes, and how what cannot be read is told on standard error, under the name that the caller gives it.
#![tactic(auto)]

ghost use Rattle.std.specs.Prelude.{◌≡◌, ◌≤◌, ◌<◌, IfOk, length, take};
ghost use Rattle.std.specs.Result.{result_ok};
ghost use Rattle.files.specs.Counts.{IsPrefixLen};

use std::fs::File;
use std::io;
use std::io::{Error, Read, Write};
use std::rt::Files;

// Where errors are told: standard error, whose bytes need not be text. What cannot be written there is told nowhere.
pub trait Errors {
    fn tell(&self, bytes: &[u8]);
}

impl Errors for HostRuntime {
    fn tell(&self, bytes: &[u8]) {
        let _ = Print::write_all(&self.stderr(), bytes);
    }
}

// Room for an error as std puts it, the system's words and its number behind them.
const WORDS: usize = 256;

// What stands between the words and the number.
const NUMBER: [u8; 11] = *b" (os error ";

// The number of the error that a name is not text: std opens no other names.
const NOT_TEXT: i32 = 84;

// How many bytes stand before the number of an error.
fn words_of(text: &[u8]) -> usize
    ensures { IsPrefixLen result text.now }
{
    text.windows(NUMBER.len())
        .position(|bytes| bytes == NUMBER.as_slice())
        .unwrap_or(text.len())
}

// Puts an error down as std puts it, and answers its length.
fn write_error(text: &mut [u8; WORDS], error: &Error) -> usize
    ensures { result ≤ 256 }
{
    let mut room: &mut [u8] = text;
    let _ = write!(room, "{error}");
    let left = room.len();
    WORDS.saturating_sub(left)
}

// Writes a line to standard error: what failed, as the caller names it, a colon and the system's words for the error.
pub fn tell_error(rt: &impl Errors, what: &[u8], error: &Error) {
    let mut text = [0u8; WORDS];
    let n = write_error(&mut text, error);
    let words = words_of(&text[..n]);
    rt.tell(what);
    rt.tell(b": ");
    rt.tell(&text[..words]);
    rt.tell(b"\n");
}

// What an attempt gave. Where it failed, a line on standard error says what did, as the caller names it, and why.
pub fn or_tell<T: Drop>(rt: &impl Errors, what: &[u8], attempt: io::Result<T>) -> Option<T>
    ensures { result ≡ result_ok attempt }
{
    if let Err(error) = &attempt {
        tell_error(rt, what, error);
    }
    attempt.ok()
}

// Reads once, behind what is kept, where there is room, and answers where what was read then ends. How much is kept stays beside the
// buffer: the contract says of both what stays.
pub fn read_more<R: Read>(reader: &mut R, input: &mut [u8], kept: usize) -> io::Result<usize>
    requires { kept < length input.old }
    ensures ends { IfOk result (λ end. (kept ≤ end) × (end ≤ length input.old)) }
    ensures keeps { take kept input.new ≡ take kept input.old }
{
    let more = reader.read(&mut input[kept..])?;
    Ok(kept + more)
}

// Reads to the end, or until there is no more room, and answers how far that got, also where a read failed. A read goes on where the
// one before it ended, so the loop counts nothing.
fn read_whole<R: Read>(reader: &mut R, file: &mut [u8]) -> (usize, io::Result<()>)
    ensures { IsPrefixLen result.0 file.new }
{
    let mut n: usize = 0;
    while n < file.len() {
        let end = match read_more(reader, file, n) {
            Ok(end) => end,
            Err(error) => return (n, Err(error)),
        };
        if end == n {
            return (n, Ok(()));
        }
        n = end;
    }
    (n, Ok(()))
}

// Opens the file at this path.
fn open<R: Files>(rt: &R, path: &[u8]) -> io::Result<R::File> {
    let text = str::from_utf8(path).map_err(|_| Error::from_raw_os_error(NOT_TEXT))?;
    File::open(rt, text)
}

// Reads the file at this path to its end, or until there is no more room, and answers how far that got, also where it failed.
pub fn read_file<R: Files>(rt: &R, path: &[u8], file: &mut [u8]) -> (usize, io::Result<()>)
    ensures { IsPrefixLen result.0 file.new }
{
    match open(rt, path) {
        Ok(mut opened) => read_whole(&mut opened, file),
        Err(error) => (0, Err(error)),
    }
}
