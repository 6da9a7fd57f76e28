// The frame awaited, as it stands in the last 15 bytes of a state: its code, 0 for none, and the string asked for.
ghost use Rattle.std.specs.Prelude.{◌≡◌};
ghost use Rattle.frames.specs.Codes.{byte_of};
ghost use Rattle.station.specs.State.{asked_in};
ghost use Rattle.station.specs.Asks.{awaited, command_in};

use frames::{Code, Command};
use terms::LockString;

// The bytes of the frame awaited.
pub const WAIT: usize = 15;

// Awaits the frame with this code and string.
pub fn begin(wait: &mut [u8; WAIT], code: Code, s: LockString)
    ensures { wait.new ≡ awaited (byte_of code) s }
{
    wait[0] = u8::from(code);
    terms::put_string(wait, 1, s);
}

// The string asked for, as it was asked.
#[tactic(auto, unfolding(crate::specs::State::asked_in))]
pub fn string(wait: &[u8; WAIT]) -> LockString
    ensures { result ≡ asked_in wait.now }
{
    terms::string_at(wait, 1)
}

// The command whose frame is awaited.
#[tactic(auto, using(crate::proofs::WaitLaws::no_command), unfolding(crate::specs::Asks::command_in, crate::specs::State::code_in))]
pub fn command(wait: &[u8; WAIT]) -> Option<Command>
    ensures { result ≡ command_in wait.now }
{
    let Ok(code) = Code::try_from(wait[0]) else {
        return None;
    };
    match code {
        Code::Lock => Some(Command::Lock),
        Code::Unlock => Some(Command::Unlock),
        Code::Clear => Some(Command::Clear),
        _ => None,
    }
}
