// Reading a frame: what it is refused with, and the request of one that is not refused.
ghost use Rattle.std.specs.Prelude.{◌≡◌, ◌≤◌, length};
ghost use Rattle.rows.specs.Outcomes.{Gives};
ghost use Rattle.frames.specs.Codes.{byte_of};
ghost use Rattle.frames.specs.Table.{frame_length};
ghost use Rattle.frames.specs.Requests.{plain as plain_of};
ghost use Rattle.frames.specs.Reading.{«code» as code_in, address_in, named_in, string_request, request_in};
ghost use Rattle.frames.specs.Inner.{Tests};

use crate::{Code, Command, Request};
use refusals::Refusal;
use rows::LowFirst;
use terms::{Address, LockString, Partition, Sector, Track, Volume};

// The code of a frame that is not refused.
pub fn code_of(frame: &[u8]) -> Result<Code, Refusal>
    ensures { Tests frame.now result }
{
    if frame.is_empty() {
        return Err(Refusal::EmptyFrame);
    }
    let code = Code::try_from(frame[0])?;
    if frame.len() != code.frame_length() {
        return Err(Refusal::WrongLength);
    }
    if code.has_address() && frame[1] != 0 {
        return Err(Refusal::WrongDtn);
    }
    Ok(code)
}

// The request of a command, with all byte fields zero.
#[tactic(auto, unfolding(crate::specs::Requests::plain))]
pub fn plain(command: Command) -> Request
    ensures { Gives (plain_of command) result }
{
    Request {
        command,
        name: [0; 8],
        password: [0; 6],
        serial: [0; 4],
        string: LockString {
            len: 0,
            bytes: [0; 13],
        },
    }
}

// dtn, src, dsk, trk (2), sec, vli: the partition stands first and the volume last.
#[tactic(auto, unfolding(crate::specs::Reading::address_in))]
fn address_of(frame: &[u8]) -> Address
    requires { 8 ≤ length frame.now }
    ensures { result ≡ address_in frame.now }
{
    let partition = Partition(frame[3]);
    let track = Track(u16::low_first_at(frame, 4));
    let sector = Sector(frame[6]);
    let volume = Volume(frame[7]);
    Address {
        volume,
        partition,
        track,
        sector,
    }
}

// Name and password. This and `with_string` stay two: each fills other fields of the request, and what they share is `plain`.
#[tactic(auto, unfolding(crate::specs::Reading::named_in, crate::specs::Requests::plain))]
fn named(command: Command, frame: &[u8]) -> Request
    requires { 15 ≤ length frame.now }
    ensures { result ≡ named_in command frame.now }
{
    Request {
        name: rows::array_at(frame, 1),
        password: rows::array_at(frame, 9),
        ..plain(command)
    }
}

// The lock string, with the bytes after its length.
#[tactic(auto, unfolding(crate::specs::Reading::string_request, crate::specs::Requests::plain, terms::specs::Strings::string_at))]
fn with_string(command: Command, frame: &[u8]) -> Request
    requires { 15 ≤ length frame.now }
    ensures { result ≡ string_request command frame.now }
{
    Request {
        string: terms::string_at(frame, 1),
        ..plain(command)
    }
}

// The request of a frame that is not refused, by its code.
#[tactic(auto, unfolding(crate::specs::Table::frame_length, crate::specs::Table::length_in, crate::specs::Table::frame_table, crate::specs::Reading::request_in, crate::specs::Reading::login_in, crate::specs::Reading::named_in))]
pub fn request_of(code: Code, frame: &[u8]) -> Request
    requires { (length frame.now ≡ frame_length (byte_of code)) × (code_in frame.now ≡ byte_of code) }
    ensures { result ≡ request_in frame.now }
{
    match code {
        Code::Acknowledge => plain(Command::Acknowledge),
        Code::Read => plain(Command::Read {
            src: frame[2],
            address: address_of(frame),
        }),
        Code::Write => plain(Command::Write {
            src: frame[2],
            address: address_of(frame),
        }),
        Code::Login => Request {
            serial: rows::array_at(frame, 15),
            ..named(Command::Login { product: frame[19] }, frame)
        },
        Code::Assign => named(Command::Assign, frame),
        Code::Lock => with_string(Command::Lock, frame),
        Code::Unlock => with_string(Command::Unlock, frame),
        Code::Clear => plain(Command::Clear),
        Code::Logout => plain(Command::Logout { src: frame[1] }),
    }
}
