// The station's end of the lock exchange: its list of locks and its wait, in lent bytes. It asks one thing at a time, sends
// that frame until a reply comes, and takes the reply.
#![tactic(auto)]

mod list;
mod rules;
mod wait;

ghost use Rattle.std.specs.Prelude.{◌≡◌, not, ◌&&◌, ◌++◌, eqb};
ghost use Rattle.refusals.specs.Outcomes.{refusal_in};
ghost use Rattle.rows.specs.Outcomes.{Gives};
ghost use Rattle.terms.specs.Statuses.{byte_of};
ghost use Rattle.terms.specs.Strings.{legal};
ghost use Rattle.frames.specs.Table.{LOCK};
ghost use Rattle.frames.specs.Codes.{byte_of as code_byte};
ghost use Rattle.station.specs.State.{is_listed};
ghost use Rattle.station.specs.Good.{good_state};
ghost use Rattle.station.specs.Asks.{ask_refusal, after_lock, after_unlock, after_clear, StepLeaves, Asks, fresh_state, fresh_refusal, Sends};
ghost use Rattle.station.specs.Replies.{fits, grants, carries_length, Replies};

use frames::{Code, Request};
use refusals::Refusal;
use terms::{LockString, Status};
use wait::WAIT;

// How many locks a station may hold, and the bytes of its state then: those of the list, and last those of the frame awaited.
pub const LIMIT: usize = 64;

pub const BYTES: usize = 911;

const LIST: usize = 896;

// The two parts of a state keep every rule.
fn parts_good(list: &[u8], wait: &[u8; WAIT]) -> bool
    ensures { result ≡ good_state (list.now ++ wait.now) }
{
    if list.len() != LIST {
        return false;
    }
    rules::list_good(list) && rules::wait_good(wait)
}

// The state keeps every rule; refusal 11 where it does not.
pub fn is_good(state: &[u8]) -> bool
    ensures { Gives (good_state state.now) result }
{
    match state.split_last_chunk() {
        Some((list, wait)) => parts_good(list, wait),
        None => false,
    }
}

// Empties the list and awaits nothing: 11 for another size.
pub fn fresh(state: &mut [u8]) -> Result<(), Refusal>
    ensures { StepLeaves (fresh_refusal state.old) fresh_state state.old (refusal_in result) state.new }
{
    if state.len() != BYTES {
        return Err(Refusal::BadTables);
    }
    state.fill(0);
    Ok(())
}

// 11 the state of these parts, 14 a reply is awaited.
fn may_ask(list: &[u8], wait: &[u8; WAIT]) -> Result<(), Refusal>
    ensures { refusal_in result ≡ ask_refusal (list.now ++ wait.now) }
{
    if !parts_good(list, wait) {
        return Err(Refusal::BadTables);
    }
    if wait[0] != 0 {
        return Err(Refusal::StillWaiting);
    }
    Ok(())
}

// Asks for a lock.
pub fn ask_lock(state: &mut [u8], s: LockString) -> Result<(), Refusal>
    ensures { Asks state.old (after_lock state.old s) (refusal_in result) state.new }
{
    let Some((list, wait)) = state.split_last_chunk_mut() else {
        return Err(Refusal::BadTables);
    };
    may_ask(list, wait)?;
    wait::begin(wait, Code::Lock, s);
    Ok(())
}

// Asks to unlock: the string is struck from the list.
pub fn ask_unlock(state: &mut [u8], s: LockString) -> Result<(), Refusal>
    ensures { Asks state.old (after_unlock state.old s) (refusal_in result) state.new }
{
    let Some((list, wait)) = state.split_last_chunk_mut() else {
        return Err(Refusal::BadTables);
    };
    may_ask(list, wait)?;
    list::strike(list, s);
    wait::begin(wait, Code::Unlock, s);
    Ok(())
}

// Asks to clear all locks: the list is emptied.
pub fn ask_clear(state: &mut [u8]) -> Result<(), Refusal>
    ensures { Asks state.old (after_clear state.old) (refusal_in result) state.new }
{
    let Some((list, wait)) = state.split_last_chunk_mut() else {
        return Err(Refusal::BadTables);
    };
    may_ask(list, wait)?;
    let no_string = LockString {
        len: 0,
        bytes: [0; 13],
    };
    list.fill(0);
    wait::begin(wait, Code::Clear, no_string);
    Ok(())
}

// Writes the frame awaited at the start of the buffer: 11, 13, or the length of the frame, 0 where nothing is awaited.
pub fn send(state: &[u8], buffer: &mut [u8]) -> Result<usize, Refusal>
    ensures { Sends state.now buffer.old result buffer.new }
{
    let Some((list, wait)) = state.split_last_chunk() else {
        return Err(Refusal::BadTables);
    };
    if !parts_good(list, wait) {
        return Err(Refusal::BadTables);
    }
    let Some(command) = wait::command(wait) else {
        return Ok(0);
    };
    let request = Request {
        string: wait::string(wait),
        ..frames::plain(command)
    };
    frames::write(request, buffer)
}

// It is done.
#[tactic(auto, unfolding(crate::specs::Replies::grants))]
fn is_grant(status: Status) -> bool
    ensures { result ≡ grants (byte_of status) }
{
    matches!(status, Status::Granted | Status::AlreadyYours)
}

// A reply to the frame awaited: its code and string, and the status that came.
#[derive(Clone, Copy)]
struct Reply {
    code: Code,
    string: LockString,
    status: Status,
}

impl Reply {
    // It is listed for the request.
    #[tactic(auto, unfolding(crate::specs::Replies::fits))]
    fn is_listed(&self) -> bool
        ensures { result ≡ fits (code_byte self.now.code) (byte_of self.now.status) }
    {
        match self.code {
            Code::Lock => true,
            Code::Unlock => matches!(self.status, Status::Granted | Status::NotYours),
            Code::Clear => matches!(self.status, Status::Granted),
            _ => false,
        }
    }

    // 00 or 81 for an illegal length.
    #[tactic(auto, unfolding(crate::specs::Replies::carries_length))]
    fn is_bad_grant(&self) -> bool
        ensures { result ≡ grants (byte_of self.now.status) && (carries_length (code_byte self.now.code) && not (legal self.now.string)) }
    {
        match self.code {
            Code::Lock | Code::Unlock => is_grant(self.status) && !terms::is_legal(self.string),
            _ => false,
        }
    }

    // It is listed, and grants no illegal length.
    fn is_fit(&self) -> bool
        ensures { result ≡ fits (code_byte self.now.code) (byte_of self.now.status) && not (grants (byte_of self.now.status) && (carries_length (code_byte self.now.code) && not (legal self.now.string))) }
    {
        self.is_listed() && !self.is_bad_grant()
    }

    // It adds its string to the list.
    #[tactic(auto, using(rows::proofs::OutcomeLaws::finds_some), unfolding(crate::specs::State::is_listed, crate::specs::State::place_of))]
    fn is_new(&self, list: &[u8]) -> bool
        ensures { result ≡ eqb (code_byte self.now.code) LOCK && (grants (byte_of self.now.status) && not (is_listed list.now self.now.string)) }
    {
        match self.code {
            Code::Lock => is_grant(self.status) && list::find(list, self.string).is_none(),
            _ => false,
        }
    }
}

// Takes a reply to the frame awaited: 11, 15.
pub fn take_reply(state: &mut [u8], reply: u8) -> Result<(), Refusal>
    ensures { Replies state.old reply (refusal_in result) state.new }
{
    let Some((list, wait)) = state.split_last_chunk_mut() else {
        return Err(Refusal::BadTables);
    };
    if !parts_good(list, wait) {
        return Err(Refusal::BadTables);
    }
    let Ok(code) = Code::try_from(wait[0]) else {
        return Err(Refusal::UnfitReply);
    };
    let Ok(status) = Status::try_from(reply) else {
        return Err(Refusal::UnfitReply);
    };
    let string = wait::string(wait);
    let reply = Reply {
        code,
        string,
        status,
    };
    if !reply.is_fit() {
        return Err(Refusal::UnfitReply);
    }
    if reply.is_new(list) {
        let Some(at) = list::first_unused(list) else {
            return Err(Refusal::UnfitReply);
        };
        list::put(list, at, string);
    }
    wait.fill(0);
    Ok(())
}
