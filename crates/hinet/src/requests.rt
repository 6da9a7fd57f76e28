// The entries that write and read one request frame (specs/FrameEntries.antt), by its code in hex. Writing takes any values
// and refuses with 13 alone; reading refuses with 1, 3, 4 or 6.
ghost use Rattle.std.specs.Prelude.{◌≡◌};
ghost use Rattle.rows.specs.Outcomes.{Gives};
ghost use Rattle.terms.specs.Strings.{string_at};
ghost use Rattle.frames.specs.declared.Command.TheVariants.{Acknowledge, Read, Write, Assign, Lock, Unlock, Clear};
ghost use Rattle.frames.specs.Requests.{plain};
ghost use Rattle.hinet.specs.FrameEntries.{disk_of, logout_of, login_of, named_of, string_of, Composes, read_word};

use crate::given;
use crate::packing::{Packed, Written};
use frames::{Code, Command, Request};

// Writes the frame of a request. No frame is longer than a byte says. A match here and in two more entries, and no `map`: the cast
// in its closure would ask for a clause of its own.
fn compose(q: Request, buffer: &mut [u8]) -> u64
    ensures { Composes q buffer.old result buffer.new }
{
    match frames::write(q, buffer) {
        Ok(length) => Written(length as u8).pack(),
        Err(refusal) => refusal.pack(),
    }
}

// The frame of a command without byte fields.
fn write_plain(command: Command, buffer: &mut [u8]) -> u64
    ensures { Composes (plain command) buffer.old result buffer.new }
{
    compose(frames::plain(command), buffer)
}

// 41: acknowledge.
pub fn hinet_write_acknowledge(buffer: &mut [u8]) -> u64
    ensures { Composes (plain Acknowledge) buffer.old result buffer.new }
{
    write_plain(Command::Acknowledge, buffer)
}

// 11: read the sector at an address. This and the next are two names of the C interface; what they share is write_plain.
#[tactic(auto, unfolding(crate::specs::FrameEntries::disk_of))]
pub fn hinet_write_read(
    src: u32,
    volume: u32,
    partition: u32,
    track: u32,
    sector: u32,
    buffer: &mut [u8],
) -> u64
    ensures { Composes (disk_of Read src volume partition track sector) buffer.old result buffer.new }
{
    let src = given::byte_of(src);
    let from = given::address_of(volume, partition, track, sector);
    write_plain(Command::Read { src, address: from }, buffer)
}

// 12: write the sector at an address.
#[tactic(auto, unfolding(crate::specs::FrameEntries::disk_of))]
pub fn hinet_write_write(
    src: u32,
    volume: u32,
    partition: u32,
    track: u32,
    sector: u32,
    buffer: &mut [u8],
) -> u64
    ensures { Composes (disk_of Write src volume partition track sector) buffer.old result buffer.new }
{
    let src = given::byte_of(src);
    let to = given::address_of(volume, partition, track, sector);
    write_plain(Command::Write { src, address: to }, buffer)
}

// A request with name and password.
#[tactic(auto, unfolding(crate::specs::FrameEntries::named_of, frames::specs::Requests::plain))]
fn named(command: Command, name: &[u8; 8], password: &[u8; 6]) -> Request
    ensures { result ≡ named_of command name.now password.now }
{
    Request {
        name: *name,
        password: *password,
        ..frames::plain(command)
    }
}

// 13: login.
#[tactic(auto, unfolding(crate::specs::FrameEntries::named_of, crate::specs::FrameEntries::login_of))]
pub fn hinet_write_login(
    name: &[u8; 8],
    password: &[u8; 6],
    serial: &[u8; 4],
    product: u8,
    buffer: &mut [u8],
) -> u64
    ensures { Composes (login_of name.now password.now serial.now product) buffer.old result buffer.new }
{
    let q = Request {
        serial: *serial,
        ..named(Command::Login { product }, name, password)
    };
    compose(q, buffer)
}

// 17: assign a partition.
pub fn hinet_write_assign(name: &[u8; 8], password: &[u8; 6], buffer: &mut [u8]) -> u64
    ensures { Composes (named_of Assign name.now password.now) buffer.old result buffer.new }
{
    compose(named(Command::Assign, name, password), buffer)
}

// The frame of a command with a lock string.
#[tactic(auto, unfolding(crate::specs::FrameEntries::string_of, frames::specs::Requests::plain))]
fn write_string(command: Command, lockstring: &[u8; 14], buffer: &mut [u8]) -> u64
    ensures { Composes (string_of command (string_at lockstring.now 0)) buffer.old result buffer.new }
{
    let q = Request {
        string: terms::string_at(lockstring, 0),
        ..frames::plain(command)
    };
    compose(q, buffer)
}

// 19: lock.
pub fn hinet_write_lock(lockstring: &[u8; 14], buffer: &mut [u8]) -> u64
    ensures { Composes (string_of Lock (string_at lockstring.now 0)) buffer.old result buffer.new }
{
    write_string(Command::Lock, lockstring, buffer)
}

// 1A: unlock.
pub fn hinet_write_unlock(lockstring: &[u8; 14], buffer: &mut [u8]) -> u64
    ensures { Composes (string_of Unlock (string_at lockstring.now 0)) buffer.old result buffer.new }
{
    write_string(Command::Unlock, lockstring, buffer)
}

// 1B: clear all locks.
pub fn hinet_write_clear(buffer: &mut [u8]) -> u64
    ensures { Composes (plain Clear) buffer.old result buffer.new }
{
    write_plain(Command::Clear, buffer)
}

// 1F: instant logout.
#[tactic(auto, unfolding(crate::specs::FrameEntries::logout_of))]
pub fn hinet_write_logout(src: u32, buffer: &mut [u8]) -> u64
    ensures { Composes (logout_of src) buffer.old result buffer.new }
{
    let src = given::byte_of(src);
    write_plain(Command::Logout { src }, buffer)
}

// Reads a frame by itself: 1, 3, 4, 6, or its code.
#[tactic(auto, using(crate::proofs::FrameLaws::read_tells), unfolding(crate::specs::Tellings::either_told, crate::specs::FrameEntries::read_word))]
pub fn hinet_read_frame(frame: &[u8]) -> u64
    ensures { Gives (read_word frame.now) result }
{
    match frames::read(frame) {
        Ok(request) => Code::from(request.command).pack(),
        Err(refusal) => refusal.pack(),
    }
}
