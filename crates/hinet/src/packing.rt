// An answer as one word (specs/Packing.antt).
#![tactic(auto, unfolding(crate::specs::Packing::word))]

ghost use Rattle.std.specs.Prelude.{◌≡◌, ◌+◌, ◌*◌, ◌<◌, ◌^◌, Result, Ok, Err};
ghost use Rattle.refusals.specs.Refusals.{number};
ghost use Rattle.site.specs.Faults.{breach_number as number_of};
ghost use Rattle.frames.specs.Codes.{byte_of};
ghost use Rattle.boot.specs.Honors.{flag_of};
ghost use Rattle.master.specs.Answers.{Told, refuses, refuses_site, answers, no_bytes, frame_made, request_of, bits_of, line_of, honor_flag, fault_told, told as answer_told, turn_told};
ghost use Rattle.master.specs.Line.{received_told};
ghost use Rattle.hinet.specs.Packing.{word, kind_number};
ghost use Rattle.hinet.specs.Tellings.{either_told};

use boot::Honor;
use frames::Code;
use framing::Heading;
use master::{Answer, Received, Turned};
use refusals::Refusal;
use site::{Breach, Fault, Refused};

// What an entry tells, and the word for it.
pub trait Packed: Sized {
    ghost tells: { Self → Told };

    fn pack(self) -> u64
        ensures { result ≡ word (tells self) };
}

// The kinds of answer, in bits 8 to 15.
#[derive(Clone, Copy)]
enum Kind {
    Status = 1,
    Assign = 2,
    Place = 3,
    Login = 4,
    Turn = 5,
    Written = 6,
    Fault = 7,
    Bits = 8,
    Line = 9,
    Boot = 10,
    Request = 13,
}

// Where the bytes of an answer stand after the first.
const BYTE_1: u64 = 0x100;

const BYTE_2: u64 = 0x1_0000;

const BYTE_3: u64 = 0x100_0000;

impl Kind {
    // The word of this kind whose answer has these bytes, lowest first.
    fn word(self, bytes: u64) -> u64
        requires { bytes < 2 ^ 48 }
        ensures { result ≡ kind_number self * 2 ^ 8 + bytes * 2 ^ 16 }
    {
        self as u64 * 0x100 + bytes * 0x1_0000
    }
}

// What was done has nothing more to tell.
impl Packed for () {
    ghost tells = { λ _. answers no_bytes };

    fn pack(self) -> u64 {
        0
    }
}

impl Packed for Refusal {
    ghost tells = { λ refusal. refuses (number refusal) };

    fn pack(self) -> u64 {
        u64::from(self.number())
    }
}

// 1 range, 2 repeated name, 3 repeated volume and number, 4 overlap. The numbers are the C header's and the enum is site's, so this
// is no From.
#[tactic(auto, unfolding(site::specs::Faults::breach_number))]
fn breach_number(breach: Breach) -> u8
    ensures { result ≡ number_of breach }
{
    match breach {
        Breach::Range => 1,
        Breach::Name => 2,
        Breach::Number => 3,
        Breach::Overlap => 4,
    }
}

// Refusal 10 with part, row and breach.
fn pack_site(part: u8, row: u8, breach: Breach) -> u64
    ensures { result ≡ word (refuses_site part row (number_of breach)) }
{
    let breach = u64::from(breach_number(breach));
    let bytes = u64::from(part) + u64::from(row) * BYTE_1 + breach * BYTE_2;
    Refusal::BadSiteFile.pack() + Kind::Fault.word(bytes)
}

// A fault: its part is 0 for the header, 1 for a user row, 2 for a partition row.
impl Packed for Fault {
    ghost tells = { fault_told };

    #[tactic(auto, unfolding(master::specs::Answers::fault_told, site::specs::Faults::fault_part, site::specs::Faults::fault_row, site::specs::Faults::fault_breach))]
    fn pack(self) -> u64 {
        match self {
            Fault::InHeader => pack_site(0, 0, Breach::Range),
            Fault::InUser(row) => pack_site(1, row, Breach::Name),
            Fault::InPartition(row, breach) => pack_site(2, row, breach),
        }
    }
}

impl Packed for Refused {
    ghost tells = { λ refused. answer_told (Err refused) };

    #[tactic(auto, unfolding(master::specs::Answers::told))]
    fn pack(self) -> u64 {
        match self {
            Refused::Site(fault) => fault.pack(),
            Refused::By(refusal) => refusal.pack(),
        }
    }
}

// What was done, or why not.
impl<T: Packed, E: Packed> Packed for Result<T, E> {
    ghost tells = { either_told T.tells E.tells };

    #[tactic(auto, unfolding(crate::specs::Tellings::either_told))]
    fn pack(self) -> u64 {
        match self {
            Ok(done) => done.pack(),
            Err(refused) => refused.pack(),
        }
    }
}

// The answer to a frame.
impl Packed for Answer {
    ghost tells = { λ answer. answer_told (Ok answer) };

    #[tactic(auto, unfolding(master::specs::Answers::told, crate::specs::Packing::word, who::specs::Records::flag))]
    fn pack(self) -> u64 {
        match self {
            Answer::Nothing => 0,
            Answer::Status(status) => Kind::Status.word(u64::from(u8::from(status))),
            Answer::Assigned {
                size,
                partition,
                control,
                volume,
            } => {
                let front = u64::from(size) + u64::from(partition.0) * BYTE_1;
                Kind::Assign.word(
                    front + u64::from(control) * BYTE_2 + u64::from(volume.0) * BYTE_3,
                )
            }
            Answer::At(at) => Kind::Place.word(
                u64::from(at.volume.0) + u64::from(at.sector) * BYTE_1,
            ),
            Answer::LoggedIn {
                number,
                found,
                serial,
            } => {
                let front = u64::from(number) + u64::from(found) * BYTE_1;
                Kind::Login.word(front + u64::from(serial) * BYTE_2)
            }
        }
    }
}

// The answer to a poll turn.
impl Packed for Turned {
    ghost tells = { λ turned. turn_told (Ok turned) };

    #[tactic(auto, unfolding(master::specs::Answers::turn_told, crate::specs::Packing::word, who::specs::Records::flag))]
    fn pack(self) -> u64 {
        Kind::Turn.word(u64::from(self.due) + u64::from(self.out) * BYTE_1)
    }
}

// A frame or block written, by its length.
#[derive(Clone, Copy)]
pub struct Written(pub u8);

impl Packed for Written {
    ghost tells = { λ written. answers (frame_made written.0) };

    fn pack(self) -> u64 {
        Kind::Written.word(u64::from(self.0))
    }
}

// A frame that reads well, by its code.
impl Packed for Code {
    ghost tells = { λ code. answers (request_of (byte_of code)) };

    fn pack(self) -> u64 {
        Kind::Request.word(u64::from(u8::from(self)))
    }
}

// A frame written to the line, by how many bits it has.
#[derive(Clone, Copy)]
pub struct Bits(pub u16);

impl Packed for Bits {
    ghost tells = { λ bits. answers (bits_of bits.0) };

    fn pack(self) -> u64 {
        Kind::Bits.word(u64::from(self.0))
    }
}

// A frame of the line: its user number, and the length of its data.
impl Packed for Heading {
    ghost tells = { λ heading. answers (line_of heading.user heading.length) };

    fn pack(self) -> u64 {
        Kind::Line.word(u64::from(self.user) + u64::from(self.length) * BYTE_1)
    }
}

// A frame from the line: another's, or answered as a frame is.
impl Packed for Received {
    ghost tells = { λ received. received_told (Ok received) };

    #[tactic(auto, unfolding(master::specs::Line::received_told))]
    fn pack(self) -> u64 {
        match self {
            Received::Another(heading) => heading.pack(),
            Received::Answered(answer) => answer.pack(),
        }
    }
}

// A login's system, by the honor flag.
impl Packed for Honor {
    ghost tells = { λ honor. answers (honor_flag (flag_of honor)) };

    fn pack(self) -> u64 {
        Kind::Boot.word(u64::from(u8::from(self)))
    }
}
