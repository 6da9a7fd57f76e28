// The text of a session line, put down in lent bytes. specs/Line.antt says what it is.
#![tactic(auto)]

ghost use Rattle.std.specs.Prelude.{◌≡◌, List, ℕ, [], ◌∷◌, ◌++◌, ◌+◌, ◌≤◌, ◌<◌, length};
ghost use Rattle.master.specs.Answers.{told, refuses, answers, status_byte, refusal_number};
ghost use Rattle.lines.specs.Line.{digit as digit_of, decimal, hex_byte, yes_or_no, answer_text, column, columns, line_text, COLON, ROOM, Writes};

use arrayvec::ArrayVec;
use itoa::Buffer;
use master::Answer;
use site::Refused;
use std::marker::Model;
use terms::{Partition, Place, Volume};

// Room for a line, of which none takes more than 87 bytes.
const BYTES: usize = 96;

// The text so far of a line: it is put together here, and put down at once.
#[derive(Drop)]
struct Line {
    text: ArrayVec<u8, BYTES>,
}

impl Model for Line {
    ghost Value = { List ℕ };

    ghost view = { λ line. line.text.items };
}

// The digit of a value below 16, with capital letters. By hand, since the text is bytes and its definition is over one digit.
#[tactic(auto, unfolding(crate::specs::Line::digit))]
fn digit(d: u8) -> u8
    requires { d < 16 }
    ensures { result ≡ digit_of d }
{
    if d < 10 { b'0' + d } else { b'A' + (d - 10) }
}

// Y or N.
#[tactic(auto, unfolding(crate::specs::Line::yes_or_no))]
fn yes_or_no(found: bool) -> u8
    ensures { result ≡ yes_or_no found }
{
    if found { b'Y' } else { b'N' }
}

impl Line {
    // A line with no text yet.
    fn new() -> Line
        ensures { result ≡ [] }
    {
        Line {
            text: ArrayVec::new(),
        }
    }

    // One character.
    fn byte(&mut self, b: u8)
        requires { length self.old + 1 ≤ ROOM }
        ensures text { self.new ≡ self.old ++ b ∷ [] }
        ensures len { length self.new ≡ length self.old + 1 }
    {
        self.text.push(b);
    }

    // A number in decimal, with no zero in front.
    #[tactic(auto, using(crate::proofs::LineLaws::decimals))]
    fn decimal(&mut self, n: u64)
        requires { length self.old + 20 ≤ ROOM }
        ensures text { self.new ≡ self.old ++ decimal n }
        ensures len { length self.new ≤ length self.old + 20 }
    {
        let mut digits = Buffer::new();
        self.text
            .try_extend_from_slice(digits.format(n).as_bytes())
            .unwrap();
    }

    // A byte as two capital digits.
    #[tactic(auto, using(crate::proofs::LineLaws::appending), unfolding(crate::specs::Line::hex_byte))]
    fn hex(&mut self, b: u8)
        requires { length self.old + 2 ≤ ROOM }
        ensures text { self.new ≡ self.old ++ hex_byte b }
        ensures len { length self.new ≡ length self.old + 2 }
    {
        self.text.push(digit(b / 16));
        self.text.push(digit(b % 16));
    }

    // Size code, partition number, control, volume.
    #[tactic(auto, using(crate::proofs::LineLaws::appending))]
    fn assigned(&mut self, size: u8, partition: Partition, control: u8, volume: Volume)
        requires { length self.old + 8 ≤ ROOM }
        ensures { self.new ≡ self.old ++ (hex_byte size ++ (hex_byte partition.0 ++ (hex_byte control ++ hex_byte volume.0))) }
    {
        self.hex(size);
        self.hex(partition.0);
        self.hex(control);
        self.hex(volume.0);
    }

    // Volume and sector, both in decimal.
    #[tactic(auto, using(crate::proofs::LineLaws::appending))]
    fn place(&mut self, place: Place)
        requires { length self.old + 41 ≤ ROOM }
        ensures { self.new ≡ self.old ++ (decimal place.volume.0 ++ (COLON ∷ decimal place.sector)) }
    {
        self.decimal(u64::from(place.volume.0));
        self.byte(b':');
        self.decimal(u64::from(place.sector));
    }

    // The number in hex, and whether the name was found.
    #[tactic(auto, using(crate::proofs::LineLaws::appending))]
    fn login(&mut self, number: u8, found: bool)
        requires { length self.old + 3 ≤ ROOM }
        ensures { self.new ≡ self.old ++ (hex_byte number ++ (yes_or_no found ∷ [])) }
    {
        self.hex(number);
        self.byte(yes_or_no(found));
    }

    // The columns before the answer, each with a space behind it.
    #[tactic(auto, using(crate::proofs::LineLaws::appending), unfolding(crate::specs::Line::columns, crate::specs::Line::column))]
    fn columns(&mut self, index: u64, number: u8, refusal: u8)
        requires { length self.old + 45 ≤ ROOM }
        ensures { self.new ≡ self.old ++ columns index number refusal }
    {
        self.decimal(index);
        self.byte(b' ');
        self.hex(number);
        self.byte(b' ');
        self.decimal(u64::from(refusal));
        self.byte(b' ');
    }

    // What the master answers; a dash stands for a refusal and for nothing to tell.
    #[tactic(auto, unfolding(crate::specs::Line::answer_text, master::specs::Answers::told, master::specs::Answers::fault_told))]
    fn answer(&mut self, answer: Result<Answer, Refused>)
        requires { length self.old + 41 ≤ ROOM }
        ensures { self.new ≡ self.old ++ answer_text (told answer) }
    {
        match answer {
            Err(_) | Ok(Answer::Nothing) => self.byte(b'-'),
            Ok(Answer::Status(status)) => self.hex(u8::from(status)),
            Ok(
                Answer::Assigned {
                    size,
                    partition,
                    control,
                    volume,
                },
            ) => self.assigned(size, partition, control, volume),
            Ok(Answer::At(place)) => self.place(place),
            Ok(Answer::LoggedIn { number, found, .. }) => self.login(number, found),
        }
    }

    // Puts the line down at `at`, and answers its end.
    fn put(&self, buffer: &mut [u8], at: usize) -> usize
        requires { at + length self.now ≤ length buffer.old }
        ensures { Writes self.now buffer.old at result buffer.new }
    {
        let text = self.text.as_slice();
        rows::put(buffer, at, text);
        at + text.len()
    }
}

// The refusal of an answer, 0 for none: that is what the column of a line shows.
#[tactic(auto, unfolding(master::specs::Answers::told, master::specs::Answers::refusal_number, master::specs::Answers::fault_told))]
fn refusal_of(answer: Result<Answer, Refused>) -> u8
    ensures { result ≡ refusal_number (told answer) }
{
    match answer {
        Ok(_) => 0,
        Err(refused) => refused.number(),
    }
}

// One line of a session, put down at `at`. Its end is answered. The place stays beside the buffer: docs/PROMISES.md
// names this function, and so its parameters stay.
#[tactic(auto, using(crate::proofs::LineLaws::lengths), unfolding(crate::specs::Line::line_text))]
pub fn write_line(
    buffer: &mut [u8],
    at: usize,
    index: u64,
    number: u8,
    answer: Result<Answer, Refused>,
) -> usize
    requires { at + ROOM ≤ length buffer.old }
    ensures { Writes (line_text index number (told answer)) buffer.old at result buffer.new }
{
    let mut line = Line::new();
    line.columns(index, number, refusal_of(answer));
    line.answer(answer);
    line.byte(b'\n');
    line.put(buffer, at)
}

// A line whose answer is a refusal by this number, which need not be one of the rules'.
#[tactic(auto, using(crate::proofs::LineLaws::lengths), unfolding(crate::specs::Line::line_text, crate::specs::Line::answer_text, master::specs::Answers::refusal_number))]
pub fn write_refused(buffer: &mut [u8], at: usize, index: u64, number: u8, refusal: u8) -> usize
    requires { at + ROOM ≤ length buffer.old }
    ensures { Writes (line_text index number (refuses refusal)) buffer.old at result buffer.new }
{
    let mut line = Line::new();
    line.columns(index, number, refusal);
    line.byte(b'-');
    line.byte(b'\n');
    line.put(buffer, at)
}

// A line whose answer is this byte as a status, which need not be one of the rules'.
#[tactic(auto, using(crate::proofs::LineLaws::lengths), unfolding(crate::specs::Line::line_text, crate::specs::Line::answer_text, crate::specs::Line::hex_byte, master::specs::Answers::refusal_number))]
pub fn write_status(buffer: &mut [u8], at: usize, index: u64, number: u8, status: u8) -> usize
    requires { at + ROOM ≤ length buffer.old }
    ensures { Writes (line_text index number (answers (status_byte status))) buffer.old at result buffer.new }
{
    let mut line = Line::new();
    line.columns(index, number, 0);
    line.hex(status);
    line.byte(b'\n');
    line.put(buffer, at)
}
