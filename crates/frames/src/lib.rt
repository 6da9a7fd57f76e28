// Request frames: the data part that a station sends, without user number, check or flags. Reading takes any bytes,
// writing any request and any buffer; each may refuse.
#![tactic(auto)]

pub mod code;
mod compose;
mod parse;

ghost use Rattle.frames.specs.Reading.{Reads};
ghost use Rattle.frames.specs.Writing.{Writes};

pub use code::Code;
pub use parse::plain;
use refusals::Refusal;
use terms::{Address, LockString};

// A command with its plain numbers. `src` is the source station number.
#[derive(Clone, Copy, Debug, PartialEq, Eq)]
pub enum Command {
    Acknowledge,
    Read { src: u8, address: Address },
    Write { src: u8, address: Address },
    Login { product: u8 },
    Assign,
    Lock,
    Unlock,
    Clear,
    Logout { src: u8 },
}

// A command with its byte fields beside it. Those that the command does not carry are no part of the request: they are
// zero when read and are not written.
#[derive(Clone, Copy)]
pub struct Request {
    pub command: Command,
    pub name: [u8; 8],
    pub password: [u8; 6],
    pub serial: [u8; 4],
    pub string: LockString,
}

// Reads a frame: 1 empty, 3 unknown code, 4 wrong length, 6 dtn not 0.
#[tactic(auto, using(crate::proofs::ReadLaws::reading_refuses, crate::proofs::ReadLaws::reading_gives))]
pub fn read(frame: &[u8]) -> Result<Request, Refusal>
    ensures { Reads frame.now result }
{
    let code = parse::code_of(frame)?;
    Ok(parse::request_of(code, frame))
}

// Writes the frame of q at the start of the buffer, and gives its length: 13 where the buffer is shorter, and then nothing
// is written.
pub fn write(q: Request, buffer: &mut [u8]) -> Result<usize, Refusal>
    ensures { Writes q buffer.old result buffer.new }
{
    let length = compose::length_of(q);
    if buffer.len() < length {
        return Err(Refusal::ShortBuffer);
    }
    compose::write_frame(buffer, q);
    Ok(length)
}
