// Why an entry refuses: the rules' list of refusals as one type, its numbers, and the words for each. An entry answers a
// `Result`, whose error is one of these; specs/Outcomes.antt says what its contract then says.
#![tactic(auto)]

ghost use Rattle.std.specs.Prelude.{◌≡◌};
ghost use Rattle.refusals.specs.Refusals.{number as number_of};

use std::error::Error;
use std::fmt;

// In the order of the numbers, which begin with 1.
#[derive(Clone, Copy, Debug, PartialEq, Eq)]
pub enum Refusal {
    EmptyFrame,
    NobodysNumber,
    UnknownCode,
    WrongLength,
    Misplaced,
    WrongDtn,
    WrongSource,
    NoSuchPartition,
    OutsidePartition,
    BadSiteFile,
    BadTables,
    HeardTooEarly,
    ShortBuffer,
    StillWaiting,
    UnfitReply,
    NoSuchSize,
    DataTooLong,
    NoFlag,
    SevenOnes,
    NoWholeBytes,
    TooFewBytes,
    WrongCheck,
    BadBootTables,
}

impl Refusal {
    // The number that the C program is told.
    pub fn number(self) -> u8
        ensures { result ≡ number_of self }
    {
        match self {
            Refusal::EmptyFrame => 1,
            Refusal::NobodysNumber => 2,
            Refusal::UnknownCode => 3,
            Refusal::WrongLength => 4,
            Refusal::Misplaced => 5,
            Refusal::WrongDtn => 6,
            Refusal::WrongSource => 7,
            Refusal::NoSuchPartition => 8,
            Refusal::OutsidePartition => 9,
            Refusal::BadSiteFile => 10,
            Refusal::BadTables => 11,
            Refusal::HeardTooEarly => 12,
            Refusal::ShortBuffer => 13,
            Refusal::StillWaiting => 14,
            Refusal::UnfitReply => 15,
            Refusal::NoSuchSize => 16,
            Refusal::DataTooLong => 17,
            Refusal::NoFlag => 18,
            Refusal::SevenOnes => 19,
            Refusal::NoWholeBytes => 20,
            Refusal::TooFewBytes => 21,
            Refusal::WrongCheck => 22,
            Refusal::BadBootTables => 23,
        }
    }
}

// The words, without the number.
impl fmt::Display for Refusal {
    fn fmt<W: fmt::Write>(&self, f: &mut fmt::Formatter<W>) -> fmt::Result {
        f.write_str(match self {
            Refusal::EmptyFrame => "the frame is empty",
            Refusal::NobodysNumber => "the number is nobody's",
            Refusal::UnknownCode => "the code is not in the frame table",
            Refusal::WrongLength => "the length differs from the frame table",
            Refusal::Misplaced => "the command or turn has no place at this number",
            Refusal::WrongDtn => "dtn is not 0",
            Refusal::WrongSource => "src differs from the number polled",
            Refusal::NoSuchPartition => "volume and partition name no row",
            Refusal::OutsidePartition => "track or sector lies outside the partition",
            Refusal::BadSiteFile => "the site file breaks a rule",
            Refusal::BadTables => "the tables or the station's state break a rule",
            Refusal::HeardTooEarly => "a station was heard in a turn that was not due",
            Refusal::ShortBuffer => "the buffer is too short for the frame",
            Refusal::StillWaiting => "the station asks while it waits",
            Refusal::UnfitReply => "no request awaits this reply",
            Refusal::NoSuchSize => "the size code is not 1 to 6",
            Refusal::DataTooLong => "the data are not 1 to 1024 bytes",
            Refusal::NoFlag => "there is no flag at the first bit, or the bits ended",
            Refusal::SevenOnes => "seven ones stopped the frame",
            Refusal::NoWholeBytes => "the bits are not whole bytes",
            Refusal::TooFewBytes => "there are under four bytes between the flags",
            Refusal::WrongCheck => "the frame check differs",
            Refusal::BadBootTables => "a table is not of whole rows, or has too many rows",
        })
    }
}

impl Error for Refusal {}
