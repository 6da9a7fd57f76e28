// Writing a frame at the start of a buffer that is long enough.
ghost use Rattle.std.specs.Prelude.{◌≡◌, ◌+◌, ◌≤◌, length};
ghost use Rattle.rows.specs.Rows.{put as put_in, over};
ghost use Rattle.frames.specs.Codes.{byte_of};
ghost use Rattle.frames.specs.Table.{frame_length};
ghost use Rattle.frames.specs.Writing.{code_of, fields_of, frame_of, address_fields, named_fields};

use crate::{Code, Command, Request};
use terms::Address;

// The code of a command.
impl From<Command> for Code {
    ghost from_gives = { λ command code. byte_of code ≡ code_of command };

    #[tactic(auto, unfolding(crate::specs::Writing::code_of))]
    fn from(command: Command) -> Code {
        match command {
            Command::Acknowledge => Code::Acknowledge,
            Command::Read { .. } => Code::Read,
            Command::Write { .. } => Code::Write,
            Command::Login { .. } => Code::Login,
            Command::Assign => Code::Assign,
            Command::Lock => Code::Lock,
            Command::Unlock => Code::Unlock,
            Command::Clear => Code::Clear,
            Command::Logout { .. } => Code::Logout,
        }
    }
}

// The length of the frame of q.
pub fn length_of(q: Request) -> usize
    ensures { result ≡ length (frame_of q) }
{
    Code::from(q.command).frame_length()
}

// dtn 0, src, dsk, trk (2), sec, vli.
#[tactic(auto, unfolding(crate::specs::Writing::address_fields, rows::specs::Numbers::low_bytes))]
fn put_address(buffer: &mut [u8], src: u8, address: Address)
    requires { 8 ≤ length buffer.old }
    ensures { buffer.new ≡ put_in buffer.old 1 (address_fields src address) }
{
    let [low, high] = address.track.0.to_le_bytes();
    let partition = address.partition.0;
    let sector = address.sector.0;
    let volume = address.volume.0;
    rows::put(buffer, 1, &[0, src, partition, low, high, sector, volume]);
}

// Name and password.
#[tactic(auto, unfolding(crate::specs::Writing::named_fields))]
fn put_named(buffer: &mut [u8], q: Request)
    requires { 15 ≤ length buffer.old }
    ensures { buffer.new ≡ put_in buffer.old 1 (named_fields q) }
{
    rows::put(buffer, 1, &q.name);
    rows::put(buffer, 9, &q.password);
}

// The fields that stand after the code.
#[tactic(auto, using(crate::proofs::WriteLaws::put_none), unfolding(crate::specs::Table::frame_length, crate::specs::Table::length_in, crate::specs::Table::frame_table, crate::specs::Writing::code_of, crate::specs::Writing::fields_of))]
fn put_fields(buffer: &mut [u8], q: Request)
    requires { frame_length (code_of q.command) ≤ length buffer.old }
    ensures { buffer.new ≡ put_in buffer.old 1 (fields_of q.command q) }
{
    match q.command {
        Command::Acknowledge => {}
        Command::Read { src, address } => put_address(buffer, src, address),
        Command::Write { src, address } => put_address(buffer, src, address),
        Command::Login { product } => {
            put_named(buffer, q);
            rows::put(buffer, 15, &q.serial);
            rows::put(buffer, 19, &[product]);
        }
        Command::Assign => put_named(buffer, q),
        Command::Lock => terms::put_string(buffer, 1, q.string),
        Command::Unlock => terms::put_string(buffer, 1, q.string),
        Command::Clear => {}
        Command::Logout { src } => rows::put(buffer, 1, &[src]),
    }
}

// The code, and the fields after it.
pub fn write_frame(buffer: &mut [u8], q: Request)
    requires { length (frame_of q) ≤ length buffer.old }
    ensures { buffer.new ≡ over (frame_of q) buffer.old }
{
    rows::put(buffer, 0, &[u8::from(Code::from(q.command))]);
    put_fields(buffer, q);
}
