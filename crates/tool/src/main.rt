// The commands of ./hinet. The words of a command are the range of their places among the arguments. The program ends with 0:
// where its first argument is --status, it writes its status, one digit, to descriptor 3 at its end. What cannot be read or
// written is told on standard error.
#![tactic(auto)]

mod boots;
mod disks;
mod words;

ghost use Rattle.std.specs.Prelude.{◌≤◌, ◌<◌, IfSome, length};

use files::Errors;
use pages::frame::Unfit;
use pages::{Page, frame};
use std::env::FillError;
use std::fs::OpenOptions;
use std::io;
use std::io::{Error, ErrorKind, Write};
use std::ops::Range;
use std::rt::{Env, Files};

// How a command ends: all is good, a file breaks a rule or nothing can be loaded, wrong use, something could not be read or
// written. Of two the later here counts.
#[derive(Clone, Copy, Debug, PartialEq, Eq, PartialOrd, Ord)]
enum Status {
    Good,
    Broken,
    Misused,
    Failed,
}

impl Status {
    // The status of what is good, or not.
    fn of(good: bool) -> Status {
        if good { Status::Good } else { Status::Broken }
    }
}

// The digit that is told of a status.
impl From<Status> for u8 {
    fn from(status: Status) -> u8 {
        match status {
            Status::Good => b'0',
            Status::Broken => b'1',
            Status::Misused => b'2',
            Status::Failed => b'3',
        }
    }
}

// Descriptor 3, where the status goes, as a file, since std writes to no descriptor by its number; and the number of the
// error that a descriptor is not open.
const STATUS: &str = "/proc/self/fd/3";

const NOT_OPEN: i32 = 9;

// The number of the error that a name is too long.
const TOO_LONG: i32 = 36;

// The longest name of a file, and room for a line: that name and the words about it, which are fewer than 200.
const NAME: usize = 4095;

const LINE: usize = 4295;

// How the command `line` is used.
const LINE_USE: &[u8] = b"line: write BYTES or read BITS";

// How many arguments there are, the program's name among them.
fn argument_count(rt: &impl Env) -> usize {
    for i in 0..usize::MAX {
        if let Err(FillError::NotPresent) = rt.arg(i, &mut []) {
            return i;
        }
    }
    usize::MAX
}

// Argument i; nothing where it is missing or there is no room for it.
fn argument<'a>(rt: &impl Env, i: usize, room: &'a mut [u8]) -> &'a [u8]
    ensures { length result.now ≤ length room.old }
{
    let n = rt.arg(i, room).unwrap_or(0);
    &room[..n]
}

// Writes a line to standard output; the status is then the one given. Where it cannot, a line on standard error says
// why, and there is no more to do.
fn say<R: Print + Errors>(rt: &R, line: &[u8], status: Status) -> Option<Status> {
    files::or_tell(rt, b"hinet: standard output", rt.write_all(line))?;
    Some(status)
}

// Wrong use: a line on standard error says what was wrong.
fn misused(rt: &impl Errors, what: &[u8], word: &[u8]) -> Option<Status> {
    rt.tell(b"hinet: ");
    rt.tell(what);
    rt.tell(word);
    rt.tell(b"\n");
    Some(Status::Misused)
}

// Checks the bytes of a site file and prints the line for it.
fn check_bytes<R: Print + Errors>(rt: &R, name: &[u8], file: &[u8]) -> Option<Status> {
    let mut room = [0u8; LINE];
    let mut line = Page::new(&mut room);
    line.append(name);
    let status = words::append_verdict(&mut line, file);
    line.append(b"\n");
    say(rt, line.text(), status)
}

// How a file is named where it cannot be read.
fn file_named<'a>(room: &'a mut [u8], name: &[u8]) -> Page<'a> {
    let mut what = Page::new(room);
    what.append(b"hinet: ");
    what.append(name);
    what
}

// Checks the site file of this name.
fn check_named<R: Files + Print + Errors>(rt: &R, name: &[u8]) -> Option<Status> {
    let mut file = [0u8; site::ROOM];
    let mut what = [0u8; LINE];
    let (n, read) = files::read_file(rt, name, &mut file);
    match files::or_tell(rt, file_named(&mut what, name).text(), read) {
        Some(()) => check_bytes(rt, name, &file[..n]),
        None => Some(Status::Failed),
    }
}

// Of a name that is too long the first bytes are told, with the system's words for it.
fn refuse_name(rt: &impl Errors, name: &[u8]) -> Status {
    let mut what = [0u8; LINE];
    let error = Error::from_raw_os_error(TOO_LONG);
    files::tell_error(rt, file_named(&mut what, name).text(), &error);
    Status::Failed
}

// Checks the site file that argument i names.
fn check_argument<R: Env + Files + Print + Errors>(rt: &R, i: usize) -> Option<Status> {
    let mut name = [0u8; NAME];
    match rt.arg(i, &mut name) {
        Ok(n) => check_named(rt, &name[..n]),
        Err(_) => Some(refuse_name(rt, &name)),
    }
}

// The command check-site: the words that follow it are its files.
fn check_site<R: Env + Files + Print + Errors>(rt: &R, words: Range<usize>) -> Option<Status> {
    if words.is_empty() {
        return misused(rt, b"check-site: no FILE", b"");
    }
    let mut worst = Status::Good;
    for i in words {
        worst = worst.max(check_argument(rt, i)?);
    }
    Some(worst)
}

// The number that a word is the digit of.
fn digit_of(word: &[u8]) -> Option<u32>
    ensures { IfSome result (λ d. d < 10) }
{
    match word {
        [digit] => char::from(*digit).to_digit(10),
        _ => None,
    }
}

// Prints the tables of disk parameters for these size codes.
fn print_tables<R: Print + Errors>(rt: &R, sizes: &[u32]) -> Option<Status> {
    let mut room = [0u8; disks::PAGE];
    let mut page = Page::new(&mut room);
    disks::append_tables(&mut page, sizes);
    say(rt, page.text(), Status::Good)
}

// The command parameters: what follows it is a size code, or nothing for all of them.
fn parameters<R: Env + Print + Errors>(rt: &R, mut words: Range<usize>) -> Option<Status> {
    let Some(size) = words.next() else {
        return print_tables(rt, &[1, 2, 3, 4, 5, 6]);
    };
    if !words.is_empty() {
        return misused(rt, b"parameters: more than one SIZE", b"");
    }
    let mut room = [0u8; NAME];
    let word = argument(rt, size, &mut room);
    match digit_of(word) {
        Some(size) if params::cpm_parameters(size).is_ok() => print_tables(rt, &[size]),
        _ => misused(rt, b"parameters: SIZE is 1 to 6, and not ", word),
    }
}

// Prints what is told of a frame, or why there is none.
fn say_frame<R: Print + Errors>(
    rt: &R,
    page: &mut Page,
    told: Result<(), Unfit>,
) -> Option<Status> {
    let status = Status::of(told.is_ok());
    if let Err(unfit) = told {
        writeln!(page, "{unfit}");
    }
    say(rt, page.text(), status)
}

// The command line: what follows it is `write`, and user number and data in hex, whose frame's bits are printed; or `read`,
// and the bits of a frame, of which what was read is printed.
fn line<R: Env + Print + Errors>(rt: &R, mut words: Range<usize>) -> Option<Status> {
    let (Some(way), Some(data), None) = (words.next(), words.next(), words.next()) else {
        return misused(rt, LINE_USE, b"");
    };
    let mut text = [0u8; frame::TEXT];
    let text = argument(rt, data, &mut text);
    let mut room = [0u8; frame::PAGE];
    let mut page = Page::new(&mut room);
    let told = match argument(rt, way, &mut [0u8; 8]) {
        b"write" => frame::append_written(&mut page, text),
        b"read" => frame::append_read(&mut page, text),
        _ => return misused(rt, LINE_USE, b""),
    };
    say_frame(rt, &mut page, told)
}

// Runs the command that the first of these words is.
fn run<R: Env + Files + Print + Errors>(rt: &R, mut words: Range<usize>) -> Option<Status> {
    let Some(command) = words.next() else {
        return misused(rt, b"no command", b"");
    };
    let mut room = [0u8; NAME];
    match argument(rt, command, &mut room) {
        b"check-site" => check_site(rt, words),
        b"parameters" => parameters(rt, words),
        b"line" => line(rt, words),
        b"boot" => boots::run(rt, words),
        word => misused(rt, b"unknown command: ", word),
    }
}

// Writes the status behind all that stands where descriptor 3 leads.
fn write_status(rt: &impl Files, status: Status) -> io::Result<()> {
    let mut file = OpenOptions::new().append(true).open(rt, STATUS)?;
    file.write_all(&[u8::from(status)])
}

// The error of a descriptor where the file that it is to be was looked for.
fn of_descriptor(error: Error) -> Error {
    if error.kind() == ErrorKind::NotFound {
        return Error::from_raw_os_error(NOT_OPEN);
    }
    error
}

fn main(rt: HostRuntime) {
    let count = argument_count(&rt);
    let mut room = [0u8; 8];
    if argument(&rt, 1, &mut room) != b"--status".as_slice() {
        run(&rt, 1..count);
        return;
    }
    let status = run(&rt, 2..count).unwrap_or(Status::Failed);
    let written = write_status(&rt, status).map_err(of_descriptor);
    files::or_tell(&rt, b"hinet: descriptor 3", written);
}
