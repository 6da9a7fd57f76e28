// The tests of a frame, 1 to 7, in their order.
ghost use Rattle.std.specs.Prelude.{◌≡◌, not, ◌||◌, eqb};
ghost use Rattle.refusals.specs.Outcomes.{GivesUnless};
ghost use Rattle.frames.specs.Codes.{byte_of};
ghost use Rattle.frames.specs.Reading.{request_in};
ghost use Rattle.master.specs.Refusals.{ANYBODY, misplaced, frame_tests};
ghost use Rattle.master.specs.Inner.{sent_elsewhere};

use frames::{Code, Command, Request};
use refusals::Refusal;

// Where a station without a number is polled.
pub const ANYBODY: u32 = 253;

// The number is nobody's: refusal 2. `inside` says whether it is logged in.
pub fn is_unknown(number: u32, inside: bool) -> bool
    ensures { result ≡ not (eqb number ANYBODY || inside) }
{
    number != ANYBODY && !inside
}

// The command with this code has no place at the number.
#[tactic(auto, unfolding(crate::specs::Refusals::misplaced))]
fn is_misplaced(number: u32, code: Code) -> bool
    ensures { result ≡ misplaced number (byte_of code) }
{
    match code {
        Code::Login => number != ANYBODY,
        Code::Logout => number == ANYBODY || number == 0,
        _ => number == ANYBODY,
    }
}

// src differs from the number polled, in a command that has one.
#[tactic(auto, unfolding(crate::specs::Inner::sent_elsewhere))]
fn is_sent_elsewhere(number: u32, command: Command) -> bool
    ensures { result ≡ sent_elsewhere number command }
{
    match command {
        Command::Read { src, .. } => u32::from(src) != number,
        Command::Write { src, .. } => u32::from(src) != number,
        Command::Logout { src } => u32::from(src) != number,
        _ => false,
    }
}

// The request of a frame, or the first of 1 to 7 that holds. Of what reading refuses 6 alone is left for it: the others come
// before the place of the command.
pub fn request_at(number: u32, frame: &[u8], records: &[u8]) -> Result<Request, Refusal>
    ensures { GivesUnless (frame_tests number frame.now records.now 0) (request_in frame.now) result }
{
    if frame.len() == 0 {
        return Err(Refusal::EmptyFrame);
    }
    if is_unknown(number, who::is_in(records, number as usize)) {
        return Err(Refusal::NobodysNumber);
    }
    let code = Code::try_from(frame[0])?;
    if frame.len() != code.frame_length() {
        return Err(Refusal::WrongLength);
    }
    if is_misplaced(number, code) {
        return Err(Refusal::Misplaced);
    }
    let request = frames::read(frame)?;
    if is_sent_elsewhere(number, request.command) {
        return Err(Refusal::WrongSource);
    }
    Ok(request)
}
